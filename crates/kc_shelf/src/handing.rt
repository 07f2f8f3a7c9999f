//! Putting a value on the shelf, and giving a name up.

ghost use Rattle.std.specs.Prelude.{◌≡◌, ◌≤◌, ◌<◌, ℕ};
ghost use Rattle.kc_store.specs.Knows.{Remembers};
ghost use Rattle.kc_shelf.specs.Meaning.{IsFitShelfAct, IsTicket, act_end, shelf_cells_end};
ghost use Rattle.kc_shelf.specs.Handing.{ActCame, DropsName, PutsValue};

use crate::operation::{ShelfAct, ShelfOp};
use crate::pool::{Holds, Pool};
use crate::shelf::Shelf;
use crate::vacant::Vacant;
use kc_model::{Footprint, Reply};
use kc_store::{Caller, Outcome, Store};
use std::sync::Wait;

// Commits an operation.
pub(crate) fn commit_act<R: Wait>(
    rt: &R,
    store: &Store,
    caller: &mut Caller,
    shelf: Shelf,
    act: ShelfAct,
) -> Outcome
    requires caller { caller.old.of ≡ store.now }
    requires fit { IsFitShelfAct shelf act }
    requires within { act_end shelf act ≤ store.now.locations }
    ensures came { ActCame shelf act result caller.old caller.new }
    ensures remembers { Remembers caller.old caller.new }
{
    store.commit(rt, caller, &ShelfOp { shelf, act })
}

// Likewise, of the shelf of a pool.
pub(crate) fn commit_on<R: Wait, T: Drop, K: Holds<T>>(
    rt: &R,
    store: &Store,
    caller: &mut Caller,
    pool: &Pool<T, K>,
    act: ShelfAct,
) -> Outcome
    requires caller { caller.old.of ≡ store.now }
    requires pool { pool.now.of ≡ store.now }
    requires fit { IsFitShelfAct pool.now.shelf act }
    requires within { act_end pool.now.shelf act ≤ store.now.locations }
    ensures came { ActCame pool.now.shelf act result caller.old caller.new }
    ensures remembers { Remembers caller.old caller.new }
{
    commit_act(rt, store, caller, pool.shelf(), act)
}

/// What putting a value answers.
#[derive(Drop)]
pub enum Put<T> {
    /// It is on the shelf, and has one name, the caller's.
    Done {
        ticket: u32,
        footprint: Footprint,
    },
    /// No slot was free, or something is worn out; the value comes back.
    Refused {
        value: T,
        outcome: Outcome,
    },
    /// A slot was had, and another value lay in it; the value comes back, and the ticket is a name of the caller's.
    Blocked {
        value: T,
        ticket: u32,
        footprint: Footprint,
    },
}

/// Puts a value into a free slot: it has one name, which is the caller's to write where it likes. It takes no memory.
pub fn put_value<R: Wait, T: Drop, K: Holds<T>>(
    rt: &R,
    store: &Store,
    caller: &mut Caller,
    pool: &Pool<T, K>,
    value: T,
) -> Put<T>
    requires caller { caller.old.of ≡ store.now }
    requires pool { pool.now.of ≡ store.now }
    requires within { shelf_cells_end pool.now.shelf ≤ store.now.locations }
    requires holds { (ticket : ℕ) → K.holds ticket value }
    ensures puts { PutsValue pool.now.shelf value result caller.old caller.new }
    ensures remembers { Remembers caller.old caller.new }
{
    match commit_on(rt, store, caller, pool, ShelfAct::Reserve) {
        Outcome::Done {
            reply: Reply::Value(ticket),
            footprint,
        } => match pool.fill(ticket, value) {
            Ok(()) => Put::Done { ticket, footprint },
            Err(value) => Put::Blocked {
                value,
                ticket,
                footprint,
            },
        },
        outcome => Put::Refused { value, outcome },
    }
}

/// What giving a name up answers.
pub enum Dropped<'a, T> {
    /// It was the last one: the value is out, and its slot is the caller's.
    Last {
        value: T,
        slot: Vacant<'a>,
        footprint: Footprint,
    },
    /// It was the last one, and no value had been put under it.
    Bare {
        slot: Vacant<'a>,
        footprint: Footprint,
    },
    /// Others name it still; or the ticket names nothing; or something is worn out, and the name stays.
    Left {
        outcome: Outcome,
    },
}

/// Gives a name of a ticket up. Who gives the last one up has the value.
pub fn drop_name<'a, R: Wait, T: Drop, K: Holds<T>>(
    rt: &R,
    store: &'a Store,
    caller: &mut Caller,
    pool: &Pool<T, K>,
    ticket: u32,
) -> Dropped<'a, T>
    requires caller { caller.old.of ≡ store.now }
    requires pool { pool.now.of ≡ store.now }
    requires ticket { IsTicket pool.now.shelf ticket }
    requires within { shelf_cells_end pool.now.shelf ≤ store.now.locations }
    ensures drops { DropsName K.holds pool.now.shelf ticket store.now result caller.old caller.new }
    ensures remembers { Remembers caller.old caller.new }
{
    match commit_on(rt, store, caller, pool, ShelfAct::Drop(ticket)) {
        Outcome::Done {
            reply: Reply::Empty,
            footprint,
        } => {
            let slot = Vacant::emptied(store, pool.shelf(), ticket);
            match pool.take(rt, ticket) {
                Some(value) => Dropped::Last {
                    value,
                    slot,
                    footprint,
                },
                None => Dropped::Bare { slot, footprint },
            }
        }
        outcome => Dropped::Left { outcome },
    }
}
