//! A store whose renewals may find no memory.

use crate::acts::read;
use crate::asserts::{equal, holds};
use kc_lasting::{LastingCaller, open_at};
use kc_loc::LocOp;
use kc_model::{Footprint, LAST_VERSION, Loc, Reply};
use kc_store::Answered;
use kc_xt::Transact;
use std::alloc::Global;
use std::process::Abort;
use std::sync::Wait;

// Adds one: how many adds were done before. None, where the location is worn, which is true then.
fn add_or_worn<R: Wait + Abort>(rt: &R, caller: &mut LastingCaller) -> Option<u32> {
    if caller.locations() == 0 {
        return None;
    }
    let add = LocOp::FetchAdd(Loc(0), 1);
    match caller.commit_into(rt, &add, &mut Footprint::new()) {
        Answered::Done(Reply::Value(before)) => Some(before),
        Answered::WornLocation(_) => {
            equal(rt, caller.read(rt, Loc(0)).version, LAST_VERSION);
            None
        }
        _ => None.expect(rt, "neither done nor worn"),
    }
}

// However often memory is wanting: what is done is done once, and what isn't wasn't.
#[test]
fn no_commit_is_lost_where_memory_is_wanting(rt: HostRuntime) {
    let versions = [LAST_VERSION - 20];
    let Ok(mut callers) = open_at(rt.alloc(), &[0], &versions, 1, 0, 3, 3) else {
        return;
    };
    let Some(mut caller) = callers.pop() else {
        return;
    };
    let mut done: u32 = 0;
    for round in 0..40u32 {
        if round % 10 == 9 {
            caller.renew(&rt);
        }
        if let Some(before) = add_or_worn(&rt, &mut caller) {
            equal(&rt, before, done);
            done = done.wrapping_add(1);
        }
    }
    equal(&rt, read(&rt, &mut caller, 0), Some(done));
    holds(&rt, done >= 20);
}
