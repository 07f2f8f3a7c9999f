//! The values, each in a slot that many may read and one may fill or empty.

ghost use Rattle.std.specs.Prelude.{◌≡◌, ◌≢◌, ℕ, ◌-◌, ◌%◌, ◌<◌, ◌≤◌, IfErr, IfOk, IfSome, length};
ghost use Rattle.std.specs.Fn.{FnOnceReturnsAt};
ghost use Rattle.counted_slot.specs.Counting.{Gains, IsTurn, readers};

use crate::shelf::Shelf;
use counted_slot::{Claim, Counted, FREE, Fits, MOST_READERS, ONE_READER, PRESENT, TAKEN};
use kc_store::Store;
use std::alloc::{AllocError, Global};
use std::marker::{Model, PhantomData};
use std::sync::Wait;
use std::thread;

/// A fact about each value, by the ticket under which it was put.
pub trait Holds<T> {
    ghost holds: { ℕ → T → Type 0 };
}

/// A value with its ticket.
#[derive(Drop)]
pub struct Kept<T, K: Holds<T>> {
    ticket: u32,
    value: T,
    rule: PhantomData<K>,
    ghost kept: { ∥ K.holds ticket value ∥₁ },
}

impl<T, K: Holds<T>> Fits for Kept<T, K> {
    type Tag = ();

    ghost fits = { λ _ _. Unit {0} };
}

type Slot<T, K> = Counted<Option<Kept<T, K>>>;

// Of which store it is. It has no bytes, and nobody asks for it.
#[derive(Drop)]
pub(crate) struct Mark;

impl Fits for Mark {
    type Tag = Store;

    ghost fits = { λ _ _. Unit {0} };
}

/// The values of a shelf. The high half of a slot's word is the ticket of the value that it has or had last. Contracts see the
/// store that has the shelf's cells, and the shelf.
#[derive(Drop)]
pub struct Pool<T: Drop, K: Holds<T>> {
    of: Counted<Mark>,
    shelf: Shelf,
    slots: Vec<Slot<T, K>>,
}

impl<T: Drop, K: Holds<T>> Model for Pool<T, K> {
    ghost use Rattle.kc_shelf.specs.Pooling.{PoolView};

    ghost Value = { PoolView };

    ghost view = { λ p. record { of = p.of; shelf = p.shelf } };
}

const HALF: u64 = 0x1_0000_0000;

fn state_of(word: u64) -> u64
    ensures { result ≡ word % 4 }
{
    word % 4
}

fn reader_count(word: u64) -> u64
    ensures { result ≡ readers word }
{
    word % HALF / 4
}

// Which step: the value is there, under this ticket.
fn has(word: u64, ticket: u32) -> bool {
    state_of(word) == PRESENT && word / HALF == ticket as u64
}

// What `f` makes of the value, where it was put under this ticket.
fn read_kept<T, K: Holds<T>, A, F: FnOnce(&T) -> A>(
    slot: &Option<Kept<T, K>>,
    ticket: u32,
    f: F,
) -> Option<A>
    requires callable { F.IsAlwaysCallable f }
    ensures read { IfSome result (λ a. ∥ ((x : T) × K.holds ticket x × FnOnceReturnsAt F.FnOnce f x a) ∥₁) }
{
    match slot {
        Some(kept) => {
            if kept.ticket == ticket {
                return Some(f(&kept.value));
            }
            None
        }
        None => { None }
    }
}

impl<T: Drop, K: Holds<T>> Pool<T, K> {
    /// The slots of a shelf in a store, all free.
    pub fn open(alloc: Global, store: &Store, shelf: Shelf) -> Result<Pool<T, K>, AllocError>
        ensures { IfOk result (λ pool. pool ≡ record { of = store.now; shelf = shelf }) }
    {
        let mut slots = Vec::with_capacity(alloc, shelf.slots() as usize)?;
        for _ in 0..shelf.slots() {
            slots.push(Counted::new(None, &()))?;
        }
        Ok(Pool {
            of: Counted::new(Mark, store),
            shelf,
            slots,
        })
    }

    /// Where its cells lie, and how many slots it has.
    pub fn shelf(&self) -> Shelf
        ensures { result ≡ self.now.shelf }
    {
        self.shelf
    }

    fn slot(&self, ticket: u32) -> Option<&Slot<T, K>> {
        let at = self.shelf.slot_of(ticket) as usize;
        if at == 0 {
            return None;
        }
        self.slots.get(at - 1)
    }

    // A right to read the value of a ticket.
    fn enter(&self, ticket: u32) -> Option<Claim<'_, Option<Kept<T, K>>>>
        ensures { IfSome result (λ claim. claim.right ≡ 1) }
    {
        let slot = self.slot(ticket)?;
        for _ in 0..u64::MAX {
            let seen = slot.load();
            if !has(seen, ticket) || reader_count(seen) >= MOST_READERS {
                return None;
            }
            if state_of(seen) == PRESENT {
                let (found, claim) = slot.turn(seen, seen + ONE_READER);
                if found == seen {
                    return Some(claim);
                }
                claim.done();
            }
        }
        None
    }

    /// Calls `f` on the value of a ticket, where it lies; None where the slot has none under this ticket. It doesn't wait.
    pub fn read<A, F: FnOnce(&T) -> A>(&self, ticket: u32, f: F) -> Option<A>
        requires callable { F.IsAlwaysCallable f }
        ensures read { IfSome result (λ a. ∥ ((x : T) × K.holds ticket x × FnOnceReturnsAt F.FnOnce f x a) ∥₁) }
    {
        let claim = self.enter(ticket)?;
        let result = read_kept(claim.get(), ticket, f);
        claim.leave();
        result
    }

    /// Puts a value into the slot of a ticket; it comes back where that has one, or had one under this ticket or a later one.
    pub fn fill(&self, ticket: u32, value: T) -> Result<(), T>
        requires { K.holds ticket value }
        ensures { IfErr result (λ x. x ≡ value) }
    {
        let Some(slot) = self.slot(ticket) else {
            return Err(value);
        };
        let high = ticket as u64 * HALF;
        for _ in 0..u64::MAX {
            let seen = slot.load();
            if state_of(seen) != FREE || seen / HALF >= ticket as u64 {
                return Err(value);
            }
            let (found, claim) = slot.turn(seen, high + TAKEN);
            if found == seen {
                claim.put(
                    Some(Kept {
                        ticket,
                        value,
                        rule: PhantomData,
                    }),
                    high + PRESENT,
                );
                return Ok(());
            }
            claim.done();
        }
        Err(value)
    }

    /// Takes the value of a ticket out; None where the slot has none under this ticket. It waits for who reads it.
    pub(crate) fn take<R: Wait>(&self, rt: &R, ticket: u32) -> Option<T>
        ensures { IfSome result (λ x. ∥ K.holds ticket x ∥₁) }
    {
        let slot = self.slot(ticket)?;
        let high = ticket as u64 * HALF;
        for _ in rt.forever() {
            let seen = slot.load();
            if !has(seen, ticket) {
                return None;
            }
            if state_of(seen) == PRESENT && reader_count(seen) == 0 {
                let (found, claim) = slot.turn(seen, high + TAKEN);
                if found == seen {
                    let kept = claim.put(None, high)?;
                    if kept.ticket != ticket {
                        return None;
                    }
                    let Kept {
                        ticket: _,
                        value,
                        rule: _,
                    } = kept;
                    return Some(value);
                }
                claim.done();
            }
            thread::yield_now();
        }
        unreachable!()
    }
}
