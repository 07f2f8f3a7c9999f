//! One caller that hangs, step by step.

ghost use Rattle.std.specs.Prelude.{◌≡◌, ◌<◌, ◌≤◌, IfSome};

use crate::asserts::{equal, holds};
use crate::callers::{ONE, UNTIL_ONE, open_two, opened, reply};
use kc_await::{HangState, Hanging, hang_step, park_for, signalled};
use kc_loc::{LocOp, Rel};
use kc_model::{Footprint, Loc, Reply};
use kc_queue::{Queue, QueueAct, QueueOp};
use kc_store::{Caller, Fate, Store, Verdict, Wakes};
use kc_xt::{Transact, Trial, Went};
use std::alloc::Global;
use std::sync::Wait;
use std::time::Duration;

// A hang on what a try of this read; None where the try is answered neither Done nor Later, or read nothing.
fn hanging_behind<T: Transact>(
    store: &Store,
    mut caller: Caller,
    transaction: &T,
) -> Option<Hanging>
    requires caller { caller.of ≡ store.now }
    requires fit { T.is_fit transaction.now }
    requires within { T.end transaction.now ≤ store.now.locations }
    ensures { IfSome result (λ h. h.caller.of ≡ store.now) }
{
    let mut footprint = Footprint::new();
    match store.try_commit_into(&mut caller, transaction, &mut footprint) {
        Verdict::Done(_) | Verdict::Later => {
            if footprint.reads.is_empty() || !footprint.is_below(transaction.bound()) {
                return None;
            }
            Some(Hanging::begin(caller, &footprint))
        }
        _ => None,
    }
}

// Steps until the state has ended: in how many steps.
fn step_on<R: Wait>(rt: &R, store: &Store, hanging: &mut Hanging) -> u64
    requires { hanging.old.caller.of ≡ store.now }
    ensures { hanging.new.caller.of ≡ hanging.old.caller.of }
{
    let before = hanging.steps();
    for _ in rt.forever() {
        match hanging.state() {
            HangState::Going | HangState::Leaving => {
                hang_step(store, hanging);
            }
            HangState::Hung | HangState::Free => break,
        }
    }
    hanging.steps().wrapping_sub(before)
}

// The caller, if it is free.
fn freed(hanging: Hanging) -> Option<Caller>
    ensures { IfSome result (λ c. c ≡ hanging.caller) }
{
    match hanging.state() {
        HangState::Free => Some(hanging.into_caller()),
        HangState::Going | HangState::Hung | HangState::Leaving => None,
    }
}

// Leaves, where it hangs: in how many steps.
fn leave<R: Wait>(rt: &R, store: &Store, hanging: &mut Hanging) -> u64
    requires { hanging.old.caller.of ≡ store.now }
    ensures { hanging.new.caller.of ≡ hanging.old.caller.of }
{
    let HangState::Hung = hanging.state() else {
        return 0;
    };
    hanging.leave();
    step_on(rt, store, hanging)
}

// Whether a caller that hangs was signalled, once it has slept for a millisecond at most; None where it doesn't hang.
fn parked<R: Wait>(rt: &R, store: &Store, hanging: &mut Hanging) -> Option<bool>
    requires { hanging.old.caller.of ≡ store.now }
    ensures { hanging.new.caller.of ≡ hanging.old.caller.of }
{
    let HangState::Hung = hanging.state() else {
        return None;
    };
    Some(park_for(rt, store, hanging, Duration::from_millis(1)))
}

#[test]
fn a_put_signals_who_hangs_on_it(rt: HostRuntime) {
    let (store, mut a, b) = opened(&rt, &[0]);
    let mut hanging = hanging_behind(&store, b, &UNTIL_ONE).expect(&rt, "nothing to hang on");
    equal(&rt, step_on(&rt, &store, &mut hanging), 2);
    equal(&rt, hanging.state(), HangState::Hung);
    holds(&rt, !signalled(&store, &mut hanging));
    equal(&rt, reply(&rt, &store, &mut a, &ONE), Some(Reply::Unit));
    holds(&rt, signalled(&store, &mut hanging));
    equal(&rt, leave(&rt, &store, &mut hanging), 2);
    equal(&rt, hanging.state(), HangState::Free);
    let mut b = freed(hanging).expect(&rt, "it hangs");
    equal(
        &rt,
        reply(&rt, &store, &mut b, &UNTIL_ONE),
        Some(Reply::Unit),
    );
}

#[test]
fn who_parks_for_a_while_is_told_whether_it_was_signalled(rt: HostRuntime) {
    let (store, mut a, b) = opened(&rt, &[0]);
    let mut hanging = hanging_behind(&store, b, &UNTIL_ONE).expect(&rt, "nothing to hang on");
    step_on(&rt, &store, &mut hanging);
    let while_hung = parked(&rt, &store, &mut hanging);
    equal(&rt, while_hung, Some(false));
    reply(&rt, &store, &mut a, &ONE);
    equal(&rt, parked(&rt, &store, &mut hanging), Some(true));
}

#[test]
fn a_quiet_try_leaves_whom_it_signalled_to_its_caller(rt: HostRuntime) {
    let (store, mut a, b) = opened(&rt, &[0]);
    let mut hanging = hanging_behind(&store, b, &UNTIL_ONE).expect(&rt, "nothing to hang on");
    step_on(&rt, &store, &mut hanging);
    let (mut trial, mut footprint) = (Trial::new(), Footprint::new());
    let mut wakes = Wakes::none();
    let fate = store.try_in_place(&mut a, &ONE, &mut trial, &mut footprint, &mut wakes);
    holds(&rt, matches!(fate, Fate::Entered { .. }));
    equal(&rt, (trial.went, trial.reply), (Went::Done, Reply::Unit));
    holds(&rt, signalled(&store, &mut hanging));
    equal(&rt, wakes.bits(), 0b10);
}

#[test]
fn a_hang_on_what_has_changed_is_free_at_once(rt: HostRuntime) {
    let (store, mut a, b) = opened(&rt, &[0]);
    let mut hanging = hanging_behind(&store, b, &UNTIL_ONE).expect(&rt, "nothing to hang on");
    equal(&rt, reply(&rt, &store, &mut a, &ONE), Some(Reply::Unit));
    equal(&rt, step_on(&rt, &store, &mut hanging), 3);
    equal(&rt, hanging.state(), HangState::Free);
    holds(&rt, !signalled(&store, &mut hanging));
}

#[test]
fn a_commit_of_two_puts_signals_who_hangs_on_the_second(rt: HostRuntime) {
    let (store, mut a, b) = opened(&rt, &[1, 0]);
    let until = LocOp::Check(Loc(1), Rel::Eq, 1);
    let mut hanging = hanging_behind(&store, b, &until).expect(&rt, "nothing to hang on");
    step_on(&rt, &store, &mut hanging);
    equal(&rt, hanging.state(), HangState::Hung);
    let both = LocOp::Swap(Loc(0), Loc(1));
    equal(&rt, reply(&rt, &store, &mut a, &both), Some(Reply::Unit));
    holds(&rt, signalled(&store, &mut hanging));
}

#[test]
fn the_last_of_64_callers_is_woken_by_its_own_bit(rt: HostRuntime) {
    let opened = Store::open(rt.alloc(), &[0], 64);
    let (store, mut callers) = opened.expect(&rt, "not opened");
    let last = callers.pop().expect(&rt, "no caller");
    let mut a = callers.pop().expect(&rt, "no caller");
    let mut hanging = hanging_behind(&store, last, &UNTIL_ONE).expect(&rt, "nothing to hang on");
    step_on(&rt, &store, &mut hanging);
    let (mut trial, mut footprint) = (Trial::new(), Footprint::new());
    let mut wakes = Wakes::none();
    store.try_in_place(&mut a, &ONE, &mut trial, &mut footprint, &mut wakes);
    holds(&rt, signalled(&store, &mut hanging));
    equal(&rt, wakes.bits(), 1 << 63);
}

// Whether a put of a location signals who hangs on a look at the front of a queue, which reads the first three of four.
fn signals<R: Wait>(rt: &R, alloc: Global, put: u32) -> Option<bool>
    requires { put < 4 }
{
    let (store, mut a, b) = open_two(alloc, &[0, 1, 7, 0])?;
    let look = QueueOp {
        queue: Queue::layout(Loc(0), 1),
        act: QueueAct::Front,
    };
    let mut hanging = hanging_behind(&store, b, &look)?;
    step_on(rt, &store, &mut hanging);
    reply(rt, &store, &mut a, &LocOp::Set(Loc(put), 5));
    Some(signalled(&store, &mut hanging))
}

#[test]
fn a_put_of_each_read_signals_and_one_elsewhere_does_not(rt: HostRuntime) {
    equal(&rt, signals(&rt, rt.alloc(), 0), Some(true));
    equal(&rt, signals(&rt, rt.alloc(), 1), Some(true));
    equal(&rt, signals(&rt, rt.alloc(), 2), Some(true));
    equal(&rt, signals(&rt, rt.alloc(), 3), Some(false));
}
