//! What becomes of a slot whose value was taken out.

ghost use Rattle.std.specs.Prelude.{◌≡◌, ◌≤◌};
ghost use Rattle.kc_store.specs.Knows.{Remembers};
ghost use Rattle.kc_shelf.specs.Freeing.{Frees, RenewsSlot};
ghost use Rattle.kc_shelf.specs.Meaning.{shelf_cells_end};

use crate::handing::commit_act;
use crate::operation::ShelfAct;
use crate::vacant::Vacant;
use kc_model::{Footprint, Reply};
use kc_store::{Caller, Outcome};
use std::sync::Wait;

/// What freeing a slot answers.
pub enum Freed<'a> {
    /// It is free; or it had its last life and rests, where `rests`.
    Done { rests: bool, footprint: Footprint },
    /// Something is worn out; the slot is the caller's still.
    Kept { slot: Vacant<'a>, outcome: Outcome },
}

/// Puts a slot back among the free ones.
pub fn free<'a, R: Wait>(rt: &R, caller: &mut Caller, slot: Vacant<'a>) -> Freed<'a>
    requires caller { caller.old.of ≡ slot.store.now }
    requires within { shelf_cells_end slot.shelf ≤ slot.store.now.locations }
    ensures frees { Frees slot.entry result caller.old caller.new }
    ensures remembers { Remembers caller.old caller.new }
{
    match commit_act(
        rt,
        slot.store,
        caller,
        slot.shelf,
        ShelfAct::Free(slot.ticket),
    ) {
        Outcome::Done {
            reply: Reply::Unit,
            footprint,
        } => {
            slot.lose();
            Freed::Done {
                rests: false,
                footprint,
            }
        }
        Outcome::Done {
            reply: Reply::Empty,
            footprint,
        } => {
            slot.lose();
            Freed::Done {
                rests: true,
                footprint,
            }
        }
        outcome => Freed::Kept { slot, outcome },
    }
}

/// What beginning the next life of a slot answers.
pub enum Renewed<'a> {
    /// Its new ticket has one name, the caller's; no value has been put under it.
    Done { ticket: u32, footprint: Footprint },
    /// It had its last life, or something is worn out; the slot is the caller's still.
    Kept { slot: Vacant<'a>, outcome: Outcome },
}

/// Begins the next life of a slot, without a word to the free ones.
pub fn renew<'a, R: Wait>(rt: &R, caller: &mut Caller, slot: Vacant<'a>) -> Renewed<'a>
    requires caller { caller.old.of ≡ slot.store.now }
    requires within { shelf_cells_end slot.shelf ≤ slot.store.now.locations }
    ensures renews { RenewsSlot slot.entry result caller.old caller.new }
    ensures remembers { Remembers caller.old caller.new }
{
    match commit_act(
        rt,
        slot.store,
        caller,
        slot.shelf,
        ShelfAct::Renew(slot.ticket),
    ) {
        Outcome::Done {
            reply: Reply::Value(ticket),
            footprint,
        } => {
            slot.lose();
            Renewed::Done { ticket, footprint }
        }
        outcome => Renewed::Kept { slot, outcome },
    }
}
