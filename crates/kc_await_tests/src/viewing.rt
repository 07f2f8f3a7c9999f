//! Views that wait.

ghost use Rattle.std.specs.Prelude.{◌≡◌, ◌≤◌};

use crate::asserts::equal;
use crate::callers::{ONE, UNTIL_ONE, opened, reply};
use kc_await::view_waiting_into;
use kc_loc::LocOp;
use kc_model::{Footprint, Loc, Reply};
use kc_store::{Caller, Store, Viewed};
use kc_xt::Transact;
use std::sync::Wait;
use std::thread;

// A view that waits where it has to.
fn viewed<R: Wait, T: Transact>(
    rt: &R,
    store: &Store,
    mut caller: Caller,
    transaction: &T,
) -> Viewed
    requires caller { caller.of ≡ store.now }
    requires fit { T.is_fit transaction.now }
    requires within { T.end transaction.now ≤ store.now.locations }
{
    view_waiting_into(rt, store, &mut caller, transaction, &mut Footprint::new())
}

fn replied<R: Wait, T: Transact>(
    rt: &R,
    store: &Store,
    mut caller: Caller,
    transaction: &T,
) -> Option<Reply>
    requires caller { caller.of ≡ store.now }
    requires fit { T.is_fit transaction.now }
    requires within { T.end transaction.now ≤ store.now.locations }
{
    reply(rt, store, &mut caller, transaction)
}

#[test]
fn a_view_waits_for_a_put(rt: HostRuntime) {
    let (store, a, b) = opened(&rt, &[0]);
    let (run, shared) = (&rt, &store);
    let (viewed, put) = thread::join(
        run,
        move || viewed(run, shared, a, &UNTIL_ONE),
        move || replied(run, shared, b, &ONE),
    );
    equal(&rt, viewed, Viewed::Done(Reply::Unit));
    equal(&rt, put, Some(Reply::Unit));
}

#[test]
fn a_view_that_needs_no_wait_has_none(rt: HostRuntime) {
    let (store, a, b) = opened(&rt, &[1]);
    let unit = Viewed::Done(Reply::Unit);
    equal(&rt, viewed(&rt, &store, a, &UNTIL_ONE), unit);
    let add = LocOp::FetchAdd(Loc(0), 1);
    equal(&rt, viewed(&rt, &store, b, &add), Viewed::Puts);
}
