//! Reading the value that a location names, where it lies.

ghost use Rattle.std.specs.Prelude.{◌≡◌, ◌≤◌, ◌<◌};
ghost use Rattle.std.specs.Fn.{FnOnceReturnsAt};
ghost use Rattle.kc_model.specs.declared.plain_store.TheConstants.{MOST_LOCATIONS};
ghost use Rattle.kc_store.specs.Knows.{Remembers};
ghost use Rattle.kc_shelf.specs.Meaning.{shelf_cells_end};
ghost use Rattle.kc_shelf.specs.Reading.{ReadsAt};

use crate::handing::{Dropped, commit_on, drop_name};
use crate::operation::ShelfAct;
use crate::pool::{Holds, Pool};
use kc_model::{Footprint, Loc, Reply};
use kc_store::{Caller, Outcome, Store};
use std::sync::Wait;

/// What reading the value that a location names answers.
pub enum Read<'a, A, T> {
    /// It was leased by a name of the caller's own, which was given up again. The result was made of the value of this ticket;
    /// None where no value has been put under it yet, or 2^30 others read it.
    Read {
        ticket: u32,
        result: Option<A>,
        lease: Footprint,
        back: Dropped<'a, T>,
    },
    /// It names none, or no further name fits, or something is worn out. Nothing was leased, unless a ticket is replied.
    Not {
        outcome: Outcome,
    },
}

/// Leases the value whose ticket a location holds, calls `f` on it where it lies, and ends the lease.
pub fn read_at<'a, R: Wait, T: Drop, K: Holds<T>, A, F: FnOnce(&T) -> A>(
    rt: &R,
    store: &'a Store,
    caller: &mut Caller,
    pool: &Pool<T, K>,
    place: Loc,
    f: F,
) -> Read<'a, A, T>
    requires caller { caller.old.of ≡ store.now }
    requires pool { pool.now.of ≡ store.now }
    requires place { (place.0 < store.now.locations) × (place.0 < MOST_LOCATIONS) }
    requires within { shelf_cells_end pool.now.shelf ≤ store.now.locations }
    requires callable { F.IsAlwaysCallable f }
    ensures reads { ReadsAt K.holds (FnOnceReturnsAt F.FnOnce f) pool.now.shelf place store.now result caller.old caller.new }
    ensures remembers { Remembers caller.old caller.new }
{
    match commit_on(rt, store, caller, pool, ShelfAct::NameAt(place)) {
        Outcome::Done {
            reply: Reply::Value(ticket),
            footprint,
        } if pool.shelf().has(ticket) => {
            let result = pool.read(ticket, f);
            let back = drop_name(rt, store, caller, pool, ticket);
            Read::Read {
                ticket,
                result,
                lease: footprint,
                back,
            }
        }
        outcome => Read::Not { outcome },
    }
}
