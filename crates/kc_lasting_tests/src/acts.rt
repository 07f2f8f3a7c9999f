//! A store that lasts, and what a handle of it does. Each act looks first whether the location is one of the store's.

ghost use Rattle.std.specs.Prelude.{◌≡◌, ◌≤◌};
ghost use Rattle.kc_lasting.specs.Told.{standing_of};

use kc_lasting::{LastingCaller, open_at};
use kc_loc::{LocOp, Rel};
use kc_model::{Footprint, LAST_VERSION, Loc, Reply};
use kc_store::{Answered, LAST_GENERATION};
use kc_xt::Transact;
use std::alloc::Global;
use std::process::Abort;
use std::sync::Wait;

/// Where a store begins, and how many commits a handle makes before it asks for a new era: at first, and in each further one.
#[derive(Clone, Copy, Debug, Drop, PartialEq, Eq)]
pub(crate) struct Wear {
    pub(crate) version: u32,
    pub(crate) generation: u64,
    pub(crate) first: u64,
    pub(crate) share: u64,
}

/// As many handles of a store of these values.
pub(crate) fn opened(
    rt: &(impl Abort + AllocGlobal),
    values: &[u32],
    callers: u32,
    wear: Wear,
) -> Vec<LastingCaller> {
    let version = wear.version.min(LAST_VERSION);
    let generation = wear.generation.min(LAST_GENERATION);
    let versions = [version; 4];
    if values.len() != 4 {
        return None.expect(rt, "not four values");
    }
    open_at(
        rt.alloc(),
        values,
        &versions,
        callers,
        generation,
        wear.first,
        wear.share,
    )
    .ok()
    .expect(rt, "not opened")
}

/// What stood at a location, to which one was added.
pub(crate) fn add<R: Wait>(rt: &R, caller: &mut LastingCaller, at: u32) -> Option<u32>
    ensures { (standing_of caller.new).roll ≡ (standing_of caller.old).roll }
{
    if caller.locations() <= at {
        return None;
    }
    let op = LocOp::FetchAdd(Loc(at), 1);
    match caller.commit_into(rt, &op, &mut Footprint::new()) {
        Answered::Done(Reply::Value(before)) => Some(before),
        _ => None,
    }
}

/// Whether the last two locations were swapped.
pub(crate) fn swap<R: Wait>(rt: &R, caller: &mut LastingCaller) -> bool {
    if caller.locations() < 4 {
        return false;
    }
    let op = LocOp::Swap(Loc(2), Loc(3));
    caller.commit_into(rt, &op, &mut Footprint::new()) == Answered::Done(Reply::Unit)
}

/// Whether a value came to stand at a location, for which it waits.
pub(crate) fn wait_for<R: Wait>(rt: &R, caller: &mut LastingCaller, at: u32, value: u32) -> bool {
    if caller.locations() <= at {
        return false;
    }
    let op = LocOp::Check(Loc(at), Rel::Eq, value);
    caller.commit_waiting_into(rt, &op, &mut Footprint::new()) == Answered::Done(Reply::Unit)
}

/// Whether a value was put at a location.
pub(crate) fn put<R: Wait>(rt: &R, caller: &mut LastingCaller, at: u32, value: u32) -> bool {
    if caller.locations() <= at {
        return false;
    }
    let op = LocOp::Set(Loc(at), value);
    caller.commit_into(rt, &op, &mut Footprint::new()) == Answered::Done(Reply::Unit)
}

/// What stands at a location.
pub(crate) fn read<R: Wait>(rt: &R, caller: &mut LastingCaller, at: u32) -> Option<u32>
    ensures { (standing_of caller.new).roll ≡ (standing_of caller.old).roll }
{
    if caller.locations() <= at {
        return None;
    }
    Some(caller.read(rt, Loc(at)).value)
}
