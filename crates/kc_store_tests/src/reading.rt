//! Reads without a transaction.

ghost use Rattle.std.specs.Prelude.{◌≡◌, ◌<◌};

use crate::asserts::{equal, holds};
use crate::trying::{open_alone, opened};
use kc_loc::LocOp;
use kc_model::{Footprint, Loc, Seen};
use kc_store::{Caller, Store};
use std::sync::Wait;
use std::thread;

const ADD: LocOp = LocOp::FetchAdd(Loc(0), 1);

// Adds one to the first location, so often.
fn raise<R: Wait>(rt: &R, store: &Store, mut caller: Caller, times: u32) -> Caller
    requires caller { caller.of ≡ store.now }
    requires location { 0 < store.now.locations }
    ensures { result.of ≡ store.now }
{
    let mut footprint = Footprint::new();
    for _ in 0..times {
        store.commit_into(rt, &mut caller, &ADD, &mut footprint);
    }
    caller
}

// Whether, so often read, the first location's version never fell and was its value.
fn rises(store: &Store, mut caller: Caller, times: u32) -> bool
    requires caller { caller.of ≡ store.now }
    requires location { 0 < store.now.locations }
{
    let mut last = 0;
    for _ in 0..times {
        let Ok(seen) = store.read(&mut caller, Loc(0)) else {
            return false;
        };
        if seen.version < last || seen.value != seen.version {
            return false;
        }
        last = seen.version;
    }
    true
}

#[test]
fn a_read_sees_an_own_put_by_one_step(rt: HostRuntime) {
    let (store, mut a) = open_alone(&rt, &[5, 9]);
    let first = Seen {
        loc: Loc(0),
        version: 0,
        value: 5,
    };
    equal(&rt, store.read(&mut a, Loc(0)), Ok(first));
    equal(&rt, a.steps(), 1);
    let mut a = raise(&rt, &store, a, 2);
    let raised = Seen {
        loc: Loc(0),
        version: 2,
        value: 7,
    };
    equal(&rt, store.read(&mut a, Loc(0)), Ok(raised));
    let other = Seen {
        loc: Loc(1),
        version: 0,
        value: 9,
    };
    equal(&rt, store.read(&mut a, Loc(1)), Ok(other));
}

#[test]
fn a_reader_beside_a_writer_never_goes_back(rt: HostRuntime) {
    let (store, a, b) = opened(&rt, &[0]);
    let (shared, run) = (&store, &rt);
    let (mut a, rising) = thread::join(
        run,
        move || raise(run, shared, a, 2_000),
        move || rises(shared, b, 20_000),
    );
    holds(&rt, rising);
    equal(
        &rt,
        store.read(&mut a, Loc(0)).map(|seen| seen.value),
        Ok(2_000),
    );
}
