//! Commits that wait no longer than to a deadline.

ghost use Rattle.std.specs.Prelude.{◌≡◌, ◌<◌, ◌≤◌};

use crate::asserts::equal;
use crate::callers::{ONE, UNTIL_ONE, opened, reply};
use kc_await::{Deadline, commit_waiting_until};
use kc_loc::{LocOp, Rel};
use kc_model::{Footprint, Loc, Reply};
use kc_store::{Answered, Caller, Store};
use kc_xt::Transact;
use std::sync::Wait;
use std::thread;
use std::time::{Clock, Duration, Instant};

// What a commit answers that waits for so long at most; None where the clock can't be read.
fn answered<R: Wait + Clock, T: Transact>(
    rt: &R,
    store: &Store,
    caller: &mut Caller,
    transaction: &T,
    micros: u64,
) -> Option<Answered>
    requires caller { caller.old.of ≡ store.now }
    requires fit { T.is_fit transaction.now }
    requires within { T.end transaction.now ≤ store.now.locations }
    ensures { caller.new.of ≡ caller.old.of }
{
    let now = Instant::now(rt).ok()?;
    let at = now.checked_add(Duration::from_micros(micros))?;
    Some(commit_waiting_until(
        rt,
        store,
        caller,
        transaction,
        &Deadline::new(rt, at),
        &mut Footprint::new(),
    ))
}

// How many of so many waits for a value that nobody puts end with the deadline.
fn ended<R: Wait + Clock>(rt: &R, store: &Store, caller: &mut Caller, waits: u32) -> u32
    requires caller { caller.old.of ≡ store.now }
    requires location { 0 < store.now.locations }
    ensures { caller.new.of ≡ caller.old.of }
{
    let mut later: u32 = 0;
    for _ in 0..waits {
        if answered(rt, store, caller, &UNTIL_ONE, 20) == Some(Answered::Later) {
            later = later.wrapping_add(1);
        }
    }
    later
}

#[test]
fn a_thousand_deadlines_pass_and_each_hang_is_left(rt: HostRuntime) {
    let (store, mut a, mut b) = opened(&rt, &[0]);
    equal(&rt, ended(&rt, &store, &mut b, 1_000), 1_000);
    equal(&rt, reply(&rt, &store, &mut a, &ONE), Some(Reply::Unit));
    equal(
        &rt,
        answered(&rt, &store, &mut b, &UNTIL_ONE, 20),
        Some(Answered::Done(Reply::Unit)),
    );
}

// Waits for its turn, for a minute at most, and hands it on, a thousand times: how often it came.
fn turns<R: Wait + Clock>(rt: &R, store: &Store, mut caller: Caller, mine: u32, next: u32) -> u32
    requires caller { caller.of ≡ store.now }
    requires location { 0 < store.now.locations }
{
    let mut came: u32 = 0;
    for _ in 0..1_000 {
        let turn = LocOp::Check(Loc(0), Rel::Eq, mine);
        if answered(rt, store, &mut caller, &turn, 60_000_000)
            == Some(Answered::Done(Reply::Unit))
        {
            came = came.wrapping_add(1);
        }
        reply(rt, store, &mut caller, &LocOp::Set(Loc(0), next));
    }
    came
}

#[test]
fn a_thousand_puts_beat_their_deadlines(rt: HostRuntime) {
    let (store, a, b) = opened(&rt, &[0]);
    let (run, shared) = (&rt, &store);
    let came = thread::join(
        run,
        move || turns(run, shared, a, 0, 1),
        move || turns(run, shared, b, 1, 0),
    );
    equal(&rt, came, (1_000, 1_000));
}

#[test]
fn a_deadline_that_has_passed_leaves_one_try(rt: HostRuntime) {
    let (store, mut a, _b) = opened(&rt, &[0]);
    equal(
        &rt,
        answered(&rt, &store, &mut a, &UNTIL_ONE, 0),
        Some(Answered::Later),
    );
    equal(
        &rt,
        answered(&rt, &store, &mut a, &ONE, 0),
        Some(Answered::Done(Reply::Unit)),
    );
}
