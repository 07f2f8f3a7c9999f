//! The footprints of a thread, whose lines lie one behind another in room that was taken before.

ghost use Rattle.std.specs.Prelude.{◌≡◌, ◌+◌, ◌-◌, ◌<◌, ◌≤◌, ◌++◌, ◌∷◌, [], IfOk, length, vec_len, vec_capacity};
ghost use Rattle.kc_model.specs.declared.footprint.TheConstants.{MOST};
ghost use Rattle.kc_history.specs.Kept.{reads_kept, puts_kept};

use kc_model::{Footprint, MOST, Put, Seen};
use std::alloc::{AllocError, Global};
use std::marker::Model;

/// Where the lines of a footprint lie among all of its thread.
#[derive(Clone, Copy, Debug)]
pub struct Span {
    reads_from: usize,
    reads_to: usize,
    puts_from: usize,
    puts_to: usize,
}

/// The footprints of a thread. Contracts see them, how many more there is room for, and how many locations each may touch.
#[derive(Drop)]
pub struct Prints {
    spans: Vec<Span>,
    reads: Vec<Seen>,
    puts: Vec<Put>,
    spare: u32,
    limit: u32,
}

impl Model for Prints {
    ghost use Rattle.std.specs.Prelude.{◌+◌, ◌*◌, ◌≤◌, All, length, vec_len, vec_capacity};
    ghost use Rattle.kc_model.specs.declared.footprint.TheConstants.{MOST};
    ghost use Rattle.kc_history.specs.PrintsValue.{PrintsValue};
    ghost use Rattle.kc_history.specs.Spans.{SpanLiesIn, prints_of};

    ghost Value = { PrintsValue };

    ghost view = { λ k. record { prints = prints_of k.reads.items k.puts.items k.spans.items; spare = k.spare; limit = k.limit } };

    ghost invariant = { λ k. All (SpanLiesIn (length k.reads.items) (length k.puts.items)) k.spans.items × (vec_len k.spans + k.spare ≤ vec_capacity k.spans) × (vec_len k.reads + k.spare * k.limit ≤ vec_capacity k.reads) × (vec_len k.puts + k.spare * k.limit ≤ vec_capacity k.puts) × (k.limit ≤ MOST) };
}

// Adds the items behind the others, in room that is there.
fn add_reads(all: &mut Vec<Seen>, more: &[Seen])
    requires { vec_len all.old + length more.now ≤ vec_capacity all.old }
    ensures items { all.new.items ≡ all.old.items ++ more.now }
    ensures len { vec_len all.new ≡ vec_len all.old + length more.now }
    ensures capacity { vec_capacity all.new ≡ vec_capacity all.old }
{
    for read in more {
        all.push_reserved(*read);
    }
}

fn add_puts(all: &mut Vec<Put>, more: &[Put])
    requires { vec_len all.old + length more.now ≤ vec_capacity all.old }
    ensures items { all.new.items ≡ all.old.items ++ more.now }
    ensures len { vec_len all.new ≡ vec_len all.old + length more.now }
    ensures capacity { vec_capacity all.new ≡ vec_capacity all.old }
{
    for put in more {
        all.push_reserved(*put);
    }
}

impl Prints {
    /// Room for so many footprints, of at most so many locations each. The room of lines is only taken, and is written where a
    /// footprint has them.
    pub fn open(alloc: Global, prints: u32, limit: u32) -> Result<Prints, AllocError>
        requires { limit ≤ MOST }
        ensures { IfOk result (λ k. k ≡ record { prints = []; spare = prints; limit = limit }) }
    {
        let lines = prints as usize * limit as usize;
        Ok(Prints {
            spans: Vec::with_capacity(alloc, prints as usize)?,
            reads: Vec::with_capacity(alloc, lines)?,
            puts: Vec::with_capacity(alloc, lines)?,
            spare: prints,
            limit,
        })
    }

    /// Adds a footprint.
    pub fn add(&mut self, footprint: &Footprint)
        requires spare { 0 < self.old.spare }
        requires reads { length footprint.now.reads.items ≤ self.old.limit }
        requires puts { length footprint.now.puts.items ≤ self.old.limit }
        ensures { self.new ≡ record { prints = self.old.prints ++ footprint.now ∷ []; spare = self.old.spare - 1; limit = self.old.limit } }
    {
        let reads_from = self.reads.len();
        let puts_from = self.puts.len();
        add_reads(&mut self.reads, footprint.reads.as_slice());
        add_puts(&mut self.puts, footprint.puts.as_slice());
        self.spans.push_reserved(Span {
            reads_from,
            reads_to: self.reads.len(),
            puts_from,
            puts_to: self.puts.len(),
        });
        self.spare -= 1;
    }

    /// How many footprints there are.
    pub fn len(&self) -> usize
        ensures { result ≡ length self.now.prints }
    {
        self.spans.len()
    }

    /// What a footprint read.
    pub fn reads(&self, index: usize) -> &[Seen]
        requires { index < length self.now.prints }
        ensures reads { result.now ≡ reads_kept self.now.prints index }
        ensures few { length result.now ≤ MOST }
    {
        let span = self.spans[index];
        &self.reads[span.reads_from..span.reads_to]
    }

    /// What it put.
    pub fn puts(&self, index: usize) -> &[Put]
        requires { index < length self.now.prints }
        ensures puts { result.now ≡ puts_kept self.now.prints index }
        ensures few { length result.now ≤ MOST }
    {
        let span = self.spans[index];
        &self.puts[span.puts_from..span.puts_to]
    }
}
