//! Waits while an era ends.

use crate::acts::{Wear, opened, put, wait_for};
use crate::asserts::{equal, holds};
use kc_await::Deadline;
use kc_lasting::LastingCaller;
use kc_loc::{LocOp, Rel};
use kc_model::{Footprint, LAST_VERSION, Loc, Reply};
use kc_store::Answered;
use kc_xt::Transact;
use std::alloc::Global;
use std::process::Abort;
use std::sync::Wait;
use std::thread;
use std::thread::{Threads, join};
use std::time::{Clock, Duration, Instant};

const ROUNDS: u32 = 40;

// No era ends but by a renewal.
const NONE: Wear = Wear {
    version: 0,
    generation: 0,
    first: 1_000_000,
    share: 1_000_000,
};

// Waits for each of these values at location 0, and answers at location 1: how often it came.
fn wait<R: Wait>(rt: &R, mut caller: LastingCaller) -> u32 {
    let mut came: u32 = 0;
    for round in 1..=ROUNDS {
        if wait_for(rt, &mut caller, 0, round) && put(rt, &mut caller, 1, round) {
            came = came.wrapping_add(1);
        }
    }
    came
}

// Ends the era while the other hangs, and puts what it waits for in the next one. Nobody puts anything in the old one any more.
fn renew<R: Wait + Clock>(rt: &R, mut caller: LastingCaller, pause: u64) -> u64 {
    for round in 1..=ROUNDS {
        thread::sleep(rt, Duration::from_micros(pause));
        if caller.renew(rt) && put(rt, &mut caller, 0, round) {
            wait_for(rt, &mut caller, 1, round);
        }
    }
    caller.era()
}

fn by_two<R: Threads + Wait + Clock + Abort + AllocGlobal + Sync>(rt: &R, wear: Wear, pause: u64) {
    let mut callers = opened(rt, &[0, 0, 0, 0], 2, wear);
    let (Some(a), Some(b)) = (callers.pop(), callers.pop()) else {
        return holds(rt, false);
    };
    let came = join(rt, move || wait(rt, a), move || renew(rt, b, pause));
    equal(rt, came, (ROUNDS, ROUNDS as u64));
}

#[test]
fn who_hangs_is_woken_where_the_era_ends(rt: HostRuntime) {
    by_two(&rt, NONE, 2_000);
}

#[test]
fn who_hangs_at_a_last_version_is_woken_where_the_era_ends(rt: HostRuntime) {
    let worn = Wear {
        version: LAST_VERSION,
        ..NONE
    };
    by_two(&rt, worn, 2_000);
}

#[test]
fn who_begins_to_hang_goes_on_where_the_era_ends(rt: HostRuntime) {
    by_two(&rt, NONE, 0);
}

// What a wait for a value at location 0 is answered, which lasts so long at most; None where the clock can't be read.
fn answered<R: Wait + Clock>(
    rt: &R,
    caller: &mut LastingCaller,
    value: u32,
    micros: u64,
) -> Option<Answered> {
    if caller.locations() == 0 {
        return None;
    }
    let at = Instant::now(rt)
        .ok()?
        .checked_add(Duration::from_micros(micros))?;
    let op = LocOp::Check(Loc(0), Rel::Eq, value);
    let limit = Deadline::new(rt, at);
    Some(caller.commit_waiting_until(rt, &op, &limit, &mut Footprint::new()))
}

#[test]
fn a_wait_ends_with_its_deadline(rt: HostRuntime) {
    let mut callers = opened(&rt, &[0, 0, 0, 0], 2, NONE);
    let (Some(mut a), Some(mut b)) = (callers.pop(), callers.pop()) else {
        return holds(&rt, false);
    };
    equal(&rt, answered(&rt, &mut a, 7, 2_000), Some(Answered::Later));
    equal(&rt, b.renew(&rt), true);
    equal(&rt, answered(&rt, &mut a, 7, 2_000), Some(Answered::Later));
    equal(&rt, put(&rt, &mut b, 0, 7), true);
    equal(
        &rt,
        answered(&rt, &mut a, 7, 60_000_000),
        Some(Answered::Done(Reply::Unit)),
    );
    equal(&rt, (a.era(), b.era()), (1, 1));
}
