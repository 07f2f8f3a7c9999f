//! The records of a thread.

ghost use Rattle.std.specs.Prelude.{◌≡◌, ◌-◌, ◌<◌, ◌≤◌, ◌++◌, ◌∷◌, [], ◌^◌, Some, IfOk, length, slice_get};
ghost use Rattle.std.specs.Option.{option_map};
ghost use Rattle.kc_model.specs.declared.footprint.TheConstants.{MOST};
ghost use Rattle.kc_history.specs.Joined.{blank_head, record_of};
ghost use Rattle.kc_history.specs.Records.{head_in, record_print, puts_of, reads_of};

use crate::prints::Prints;
use crate::record::{BLANK, Head, Mark};
use crossbeam_utils::CachePadded;
use kc_model::{Answer, Footprint, MOST, Put, Seen};
use std::alloc::{AllocError, Global};
use std::marker::Model;

/// The records of a thread, in the order in which they were added, in room that was taken before. Of some the footprint
/// alone is kept: they have the blank head. Contracts see them, how many more there is room for, how many more footprints
/// alone behind those, and how many locations each may touch.
#[derive(Drop)]
#[repr(C)]
pub struct Records {
    // The records of several threads lie side by side in a vector, and each thread counts up its own at every command.
    apart: CachePadded<()>,
    heads: Vec<Head>,
    blank: Head,
    prints: Prints,
}

impl Model for Records {
    ghost use Rattle.std.specs.Prelude.{◌≡◌, ◌+◌, ◌-◌, ◌≤◌, length, vec_len};
    ghost use Rattle.kc_history.specs.RecordsValue.{RecordsValue};
    ghost use Rattle.kc_history.specs.Joined.{blank_head, joined_records};

    ghost Value = { RecordsValue };

    ghost view = { λ r. record { items = joined_records r.heads.items r.prints.prints; spare = vec_len r.heads - length r.prints.prints; bare = r.prints.spare - (vec_len r.heads - length r.prints.prints); limit = r.prints.limit } };

    ghost invariant = { λ r. (r.blank ≡ blank_head) × (vec_len r.heads ≤ length r.prints.prints + r.prints.spare) };
}

impl Records {
    /// Room for so many records, of at most so many locations each. All heads are written; of the room for lines only
    /// what records fill.
    pub fn open(alloc: Global, records: u32, limit: u32) -> Result<Records, AllocError>
        requires { limit ≤ MOST }
        ensures { IfOk result (λ r. r ≡ record { items = []; spare = records; bare = 0; limit = limit }) }
    {
        Ok(Records {
            apart: CachePadded::new(()),
            heads: blank_heads(alloc, records as usize)?,
            blank: BLANK,
            prints: Prints::open(alloc, records, limit)?,
        })
    }

    /// Room for so many footprints alone, of at most so many locations each.
    pub fn open_prints(alloc: Global, prints: u32, limit: u32) -> Result<Records, AllocError>
        requires { limit ≤ MOST }
        ensures { IfOk result (λ r. r ≡ record { items = []; spare = 0; bare = prints; limit = limit }) }
    {
        Ok(Records {
            apart: CachePadded::new(()),
            heads: Vec::new(alloc),
            blank: BLANK,
            prints: Prints::open(alloc, prints, limit)?,
        })
    }

    /// Adds a record, with a copy of the footprint's lines.
    pub fn add(&mut self, thread: u32, mark: Mark, answer: Answer, footprint: &Footprint)
        requires spare { 0 < self.old.spare }
        requires reads { length footprint.now.reads.items ≤ self.old.limit }
        requires puts { length footprint.now.puts.items ≤ self.old.limit }
        ensures items { self.new.items ≡ self.old.items ++ record { thread = thread; mark = mark; answer = answer; footprint = footprint.now } ∷ [] }
        ensures spare { self.new.spare ≡ self.old.spare - 1 }
        ensures bare { self.new.bare ≡ self.old.bare }
        ensures limit { self.new.limit ≡ self.old.limit }
    {
        let head = &mut self.heads[self.prints.len()];
        head.thread = thread;
        head.mark = mark;
        head.answer = answer;
        self.prints.add(footprint);
    }

    /// Adds a record of which the footprint alone is kept, with a copy of its lines.
    pub fn add_print(&mut self, footprint: &Footprint)
        requires spare { self.old.spare ≡ 0 }
        requires bare { 0 < self.old.bare }
        requires reads { length footprint.now.reads.items ≤ self.old.limit }
        requires puts { length footprint.now.puts.items ≤ self.old.limit }
        ensures items { self.new.items ≡ self.old.items ++ record_of blank_head footprint.now ∷ [] }
        ensures spare { self.new.spare ≡ self.old.spare }
        ensures bare { self.new.bare ≡ self.old.bare - 1 }
        ensures limit { self.new.limit ≡ self.old.limit }
    {
        self.prints.add(footprint);
    }

    /// How many records there are.
    pub fn len(&self) -> usize
        ensures { result ≡ length self.now.items }
    {
        self.prints.len()
    }

    /// What a record says but for its footprint; the blank head where that alone is kept.
    pub fn head(&self, index: usize) -> &Head
        requires { index < length self.now.items }
        ensures { option_map head_in (slice_get self.now.items index) ≡ Some result.now }
    {
        if index < self.heads.len() {
            &self.heads[index]
        } else {
            &self.blank
        }
    }

    /// What it read.
    pub fn reads(&self, index: usize) -> &[Seen]
        requires { index < length self.now.items }
        ensures reads { result.now ≡ reads_of self.now.items index }
        ensures few { length result.now ≤ MOST }
    {
        self.prints.reads(index)
    }

    /// What it put.
    pub fn puts(&self, index: usize) -> &[Put]
        requires { index < length self.now.items }
        ensures puts { result.now ≡ puts_of self.now.items index }
        ensures few { length result.now ≤ MOST }
    {
        self.prints.puts(index)
    }

    /// Makes of a footprint what the record's is.
    pub(crate) fn fill(&self, index: usize, footprint: &mut Footprint)
        requires { index < length self.now.items }
        ensures { footprint.new ≡ record_print self.now.items index }
    {
        footprint.reads.clear();
        footprint.puts.clear();
        let _ = footprint.reads.try_extend_from_slice(self.reads(index));
        let _ = footprint.puts.try_extend_from_slice(self.puts(index));
    }
}

fn blank_heads(alloc: Global, count: usize) -> Result<Vec<Head>, AllocError>
    requires { count < 2 ^ 32 }
    ensures { IfOk result (λ heads. length heads.items ≡ count) }
{
    let mut heads = Vec::with_capacity(alloc, count)?;
    for _ in 0..count {
        heads.push(BLANK)?;
    }
    Ok(heads)
}
