//! Callers that wait for each other.

ghost use Rattle.std.specs.Prelude.{◌≡◌, ◌<◌, ◌≤◌};
ghost use Rattle.kc_cells.specs.Mvar.{mvar_cells_end};
ghost use Rattle.kc_queue.specs.Meaning.{queue_cells_end};

use crate::asserts::equal;
use crate::callers::{ONE, UNTIL_ONE, opened, reply};
use kc_cells::{Mvar, MvarAct, MvarOp};
use kc_loc::{LocOp, Rel};
use kc_model::{Loc, Reply};
use kc_queue::{Queue, QueueAct, QueueOp};
use kc_store::{Caller, Store};
use std::sync::Wait;
use std::thread;

#[test]
fn who_learned_of_a_put_commits_behind_it(rt: HostRuntime) {
    let (store, mut a, mut b) = opened(&rt, &[0]);
    equal(&rt, reply(&rt, &store, &mut a, &ONE), Some(Reply::Unit));
    let note = store.note(&mut a);
    store.learn(&mut b, note);
    equal(&rt, b.steps(), 0);
    equal(
        &rt,
        reply(&rt, &store, &mut b, &UNTIL_ONE),
        Some(Reply::Unit),
    );
}

// ---- two threads, each of which waits for the other: a wait that isn't woken keeps a test for ever

// Takes the item of the one queue, waiting for it, and puts the next number into the other.
fn hand_on<R: Wait>(
    rt: &R,
    store: &Store,
    caller: &mut Caller,
    from: Queue,
    to: Queue,
) -> Option<u32>
    requires caller { caller.old.of ≡ store.now }
    requires from { queue_cells_end from ≤ store.now.locations }
    requires to { queue_cells_end to ≤ store.now.locations }
    ensures { caller.new.of ≡ caller.old.of }
{
    let take = QueueOp {
        queue: from,
        act: QueueAct::DeqWait,
    };
    let Some(Reply::Value(item)) = reply(rt, store, caller, &take) else {
        return None;
    };
    let put = QueueOp {
        queue: to,
        act: QueueAct::Enq(item.wrapping_add(1)),
    };
    reply(rt, store, caller, &put);
    Some(item)
}

// The same 500 times: the last item.
fn pass_on<R: Wait>(
    rt: &R,
    store: &Store,
    mut caller: Caller,
    from: Queue,
    to: Queue,
) -> Option<u32>
    requires caller { caller.of ≡ store.now }
    requires from { queue_cells_end from ≤ store.now.locations }
    requires to { queue_cells_end to ≤ store.now.locations }
{
    let mut last = None;
    for _ in 0..500 {
        last = hand_on(rt, store, &mut caller, from, to);
    }
    last
}

#[test]
fn two_threads_hand_an_item_over(rt: HostRuntime) {
    let (store, mut a, b) = opened(&rt, &[0; 6]);
    let there = Queue::layout(Loc(0), 1);
    let back = Queue::layout(Loc(3), 1);
    let first = QueueOp {
        queue: there,
        act: QueueAct::Enq(0),
    };
    reply(&rt, &store, &mut a, &first);
    let shared = &store;
    let taken = thread::join(
        &rt,
        move || pass_on(&rt, shared, a, back, there),
        move || pass_on(&rt, shared, b, there, back),
    );
    equal(&rt, taken, (Some(999), Some(998)));
}

// Waits for its turn and hands it on, 500 times.
fn take_turns<R: Wait>(rt: &R, store: &Store, mut caller: Caller, mine: u32, next: u32)
    requires caller { caller.of ≡ store.now }
    requires location { 0 < store.now.locations }
{
    for _ in 0..500 {
        reply(rt, store, &mut caller, &LocOp::Check(Loc(0), Rel::Eq, mine));
        reply(rt, store, &mut caller, &LocOp::Set(Loc(0), next));
    }
}

#[test]
fn two_threads_take_turns(rt: HostRuntime) {
    let (store, a, b) = opened(&rt, &[0]);
    let shared = &store;
    thread::join(
        &rt,
        move || take_turns(&rt, shared, a, 0, 1),
        move || take_turns(&rt, shared, b, 1, 0),
    );
}

// Puts 1,000 values one after another, each once the one before was taken.
fn give<R: Wait>(rt: &R, store: &Store, mut caller: Caller, mvar: Mvar)
    requires caller { caller.of ≡ store.now }
    requires within { mvar_cells_end mvar ≤ store.now.locations }
{
    for value in 0..1_000 {
        let act = MvarAct::Put(value);
        reply(rt, store, &mut caller, &MvarOp { mvar, act });
    }
}

// Takes 1,000 values: how many came in their order.
fn take<R: Wait>(rt: &R, store: &Store, mut caller: Caller, mvar: Mvar) -> u32
    requires caller { caller.of ≡ store.now }
    requires within { mvar_cells_end mvar ≤ store.now.locations }
{
    let mut in_order: u32 = 0;
    let act = MvarAct::Take;
    for value in 0..1_000 {
        let taken = reply(rt, store, &mut caller, &MvarOp { mvar, act });
        if taken == Some(Reply::Value(value)) {
            in_order = in_order.wrapping_add(1);
        }
    }
    in_order
}

#[test]
fn two_threads_hand_values_over_by_a_variable(rt: HostRuntime) {
    let (store, a, b) = opened(&rt, &[0; 2]);
    let mvar = Mvar::layout(Loc(0));
    let shared = &store;
    let (_, in_order) = thread::join(
        &rt,
        move || give(&rt, shared, a, mvar),
        move || take(&rt, shared, b, mvar),
    );
    equal(&rt, in_order, 1_000);
}
