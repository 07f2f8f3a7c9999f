//! The texts, each in a slot that many may read and one may empty.

ghost use Rattle.std.specs.Prelude.{◌≡◌, ◌<◌, ◌≤◌, ◌↔◌, ℕ, List, IfErr, IfOk, IsSome, IsSomeAnd, length};
ghost use Rattle.std.specs.Fn.{FnOnceReturnsAt};
ghost use Rattle.kc_text.specs.Pool.{IsTextOf, IsTooMany, texts_in};

use crate::text::Text;
use crate::texts::MOST_TEXTS;
use counted_slot::{Claim, Counted, FREE, Fits, MOST_READERS, ONE_READER, PRESENT, TAKEN};
use std::alloc::Global;
use std::marker::Model;
use std::sync::Wait;
use std::thread;

// The numbers of a slot with a text and room for one reader more are below this one: four for each reader.
const ALL_READERS: u64 = 4 * MOST_READERS;

/// The text that a slot was made with is the only one that it ever holds.
impl Fits for Text {
    ghost use Rattle.std.specs.Prelude.{◌≡◌};

    type Tag = Text;

    ghost fits = { λ tag text. text ≡ tag };
}

/// A text, or none where it was taken out. Contracts see the text that it was made with.
type Slot = Counted<Option<Text>>;

/// The texts, which threads share in place. Contracts see the texts with which it was opened.
#[derive(Drop)]
pub struct TextPool {
    slots: Vec<Slot>,
}

impl Model for TextPool {
    ghost use Rattle.std.specs.Prelude.{ℕ, List};

    ghost Value = { List (List ℕ) };

    ghost view = { λ p. p.slots.items };
}

/// Why no pool was opened; the texts come back.
#[derive(Drop)]
pub enum PoolError {
    /// There are more than `MOST_TEXTS`.
    TooMany { texts: Vec<Text> },
    NoMemory { texts: Vec<Text> },
}

// A slot with the text.
fn filled(text: Text) -> Slot
    ensures { result ≡ text }
{
    let tag = text.copy();
    let slot = Counted::new(None, &tag);
    let (found, claim) = slot.turn(FREE, TAKEN);
    if found == FREE {
        claim.put(Some(text), PRESENT);
    } else {
        // Nobody else has the slot, so that never comes.
        claim.done();
    }
    slot
}

impl TextPool {
    /// A pool of these texts, numbered from 1.
    ///
    /// # Errors
    ///
    /// - TooMany: exactly above 4,096 texts
    /// - NoMemory
    pub fn open(alloc: Global, texts: Vec<Text>) -> Result<TextPool, PoolError>
        ensures ok { IfOk result (λ pool. pool ≡ texts.items) }
        ensures many { IsTooMany result ↔ (MOST_TEXTS < length texts.items) }
        ensures back { IfErr result (λ e. texts_in e ≡ texts.items) }
    {
        if texts.len() > MOST_TEXTS as usize {
            return Err(PoolError::TooMany { texts });
        }
        let Ok(mut slots) = Vec::with_capacity(alloc, texts.len()) else {
            return Err(PoolError::NoMemory { texts });
        };
        for text in texts {
            slots.push_reserved(filled(text));
        }
        Ok(TextPool { slots })
    }

    /// How many texts it was opened with.
    pub fn len(&self) -> usize
        ensures { result ≡ length self.now }
    {
        self.slots.len()
    }
}

// ---- one slot

/// A right to read the text of a slot, as soon as it is there and a further reader fits.
fn enter<'a, R: Wait>(rt: &R, slot: &'a Slot) -> Claim<'a, Option<Text>>
    ensures reads { result.right ≡ 1 }
    ensures slot { result.tag ≡ slot.now }
    ensures there { IsSomeAnd result.value (λ text. IsSome text) }
{
    for _ in rt.forever() {
        let seen = slot.load();
        if seen % 4 == PRESENT && seen < ALL_READERS {
            let (found, claim) = slot.turn(seen, seen + ONE_READER);
            if found == seen {
                if claim.get().is_some() {
                    return claim;
                }
                claim.leave();
            } else {
                claim.done();
            }
        }
        thread::yield_now();
    }
    unreachable!()
}

/// Calls `f` on the text of a slot, where it lies.
fn read_at<R: Wait, A, F: FnOnce(&Text) -> A>(rt: &R, slot: &Slot, f: F) -> A
    requires { F.IsAlwaysCallable f }
    ensures { FnOnceReturnsAt F.FnOnce f slot.now result }
{
    let claim = enter(rt, slot);
    let result = match claim.get() {
        Some(text) => f(text),
        None => unreachable!(),
    };
    claim.leave();
    result
}

/// Takes the text out of a slot, as soon as it is there and nobody reads it.
fn take_at<R: Wait>(rt: &R, slot: &Slot) -> Text
    ensures { result ≡ slot.now }
{
    for _ in rt.forever() {
        let (found, claim) = slot.turn(PRESENT, TAKEN);
        if found == PRESENT {
            if let Some(text) = claim.put(None, FREE) {
                return text;
            }
        } else {
            claim.done();
        }
        thread::yield_now();
    }
    unreachable!()
}

impl TextPool {
    /// Calls `f` on a text, where it lies.
    pub(crate) fn read<R: Wait, A, F: FnOnce(&Text) -> A>(&self, rt: &R, number: u32, f: F) -> A
        requires number { (1 ≤ number) × (number ≤ length self.now) }
        requires callable { F.IsAlwaysCallable f }
        ensures { (text : List ℕ) × IsTextOf self.now number text × FnOnceReturnsAt F.FnOnce f text result }
    {
        read_at(rt, &self.slots[number as usize - 1], f)
    }

    /// Takes a text out.
    pub(crate) fn take<R: Wait>(&self, rt: &R, number: u32) -> Text
        requires { (1 ≤ number) × (number ≤ length self.now) }
        ensures { IsTextOf self.now number result }
    {
        take_at(rt, &self.slots[number as usize - 1])
    }
}
