//! Tries that another's commit overtakes.

ghost use Rattle.std.specs.Prelude.{◌≡◌, ◌≤◌};
ghost use Rattle.kc_loc.specs.Meaning.{LocIsFit, loc_end};
ghost use Rattle.kc_queue.specs.Meaning.{queue_cells_end};

use crate::asserts::equal;
use crate::trying::opened;
use kc_loc::LocOp;
use kc_model::{Footprint, Loc, Reply};
use kc_queue::{Queue, QueueAct, QueueOp};
use kc_store::{Answered, Caller, Store, Verdict};
use kc_xt::{Peek, Stop, Transact, Xt};
use std::process::Abort;
use std::sync::{Barrier, Wait};
use std::thread;
use std::thread::Threads;

const ADD: LocOp = LocOp::FetchAdd(Loc(0), 1);

const SWAP: LocOp = LocOp::Swap(Loc(0), Loc(1));

// An operation behind whose looks another thread has a turn.
#[derive(Drop)]
pub(crate) struct Halfway<'a, T, R> {
    pub(crate) operation: &'a T,
    pub(crate) rt: &'a R,
    pub(crate) turn: &'a Barrier,
}

impl<T: Transact, R: Wait> Transact for Halfway<'_, T, R> {
    ghost meaning = { λ h. T.meaning h.operation.now };

    ghost is_fit = { λ h. T.is_fit h.operation.now };

    ghost end = { λ h. T.end h.operation.now };

    ghost most = { λ h. T.most h.operation.now };

    fn bound(&self) -> u32 {
        self.operation.bound()
    }

    fn limit(&self) -> u32 {
        self.operation.limit()
    }

    fn run<P: Peek>(&self, xt: &mut Xt<P>) -> Result<Reply, Stop> {
        let told = self.operation.run(xt);
        self.turn.wait(self.rt);
        self.turn.wait(self.rt);
        told
    }
}

// A try with the other's turn in it.
fn try_halfway<R: Wait, T: Transact>(
    rt: &R,
    store: &Store,
    mut caller: Caller,
    turn: &Barrier,
    operation: &T,
) -> Verdict
    requires caller { caller.of ≡ store.now }
    requires fit { T.is_fit operation.now }
    requires within { T.end operation.now ≤ store.now.locations }
{
    let halfway = Halfway {
        operation,
        rt,
        turn,
    };
    store.try_commit_into(&mut caller, &halfway, &mut Footprint::new())
}

// Commits an operation in the other's turn.
fn overtake<R: Wait>(
    rt: &R,
    store: &Store,
    mut caller: Caller,
    turn: &Barrier,
    other: LocOp,
) -> Answered
    requires caller { caller.of ≡ store.now }
    requires fit { LocIsFit other }
    requires within { loc_end other ≤ store.now.locations }
{
    let mut footprint = Footprint::new();
    turn.wait(rt);
    let answered = store.commit_into(rt, &mut caller, &other, &mut footprint);
    turn.wait(rt);
    answered
}

// What a try of the operation comes to where another one is committed between its looks and its commit, and what that came to.
fn overtaken<R: Threads + Wait + Sync, T: Transact + Sync>(
    rt: &R,
    store: &Store,
    a: Caller,
    b: Caller,
    operation: &T,
    other: LocOp,
) -> (Verdict, Answered)
    requires first { a.of ≡ store.now }
    requires second { b.of ≡ store.now }
    requires fit { T.is_fit operation.now }
    requires within { T.end operation.now ≤ store.now.locations }
    requires fit_too { LocIsFit other }
    requires within_too { loc_end other ≤ store.now.locations }
{
    let barrier = Barrier::new(2);
    let turn = &barrier;
    thread::join(
        rt,
        move || try_halfway(rt, store, a, turn, operation),
        move || overtake(rt, store, b, turn, other),
    )
}

// Asserts that it is lost, where it reads the first location of two.
fn is_lost<R: Abort + AllocGlobal + Threads + Wait + Sync>(rt: &R, operation: LocOp)
    requires fit { LocIsFit operation }
    requires within { loc_end operation ≤ 2 }
{
    let (store, a, b) = opened(rt, &[5, 7]);
    let loc = Loc(0);
    let (tried, answered) = overtaken(rt, &store, a, b, &operation, ADD);
    equal(rt, tried, Verdict::Lost { loc, version: 1 });
    equal(rt, answered, Answered::Done(Reply::Value(5)));
}

#[test]
fn a_try_that_another_overtakes_is_lost(rt: HostRuntime) {
    // It puts one location, by one exchange, and then two, by a descriptor.
    is_lost(&rt, ADD);
    is_lost(&rt, SWAP);
}

#[test]
fn a_lost_try_names_the_second_of_three_reads(rt: HostRuntime) {
    // A look at the front of a queue of one item reads where it begins, how many there are, and the item.
    let (store, a, b) = opened(&rt, &[0, 1, 7]);
    let look = QueueOp {
        queue: Queue::layout(Loc(0), 1),
        act: QueueAct::Front,
    };
    let loc = Loc(1);
    let (tried, answered) = overtaken(&rt, &store, a, b, &look, LocOp::FetchAdd(loc, 1));
    equal(&rt, tried, Verdict::Lost { loc, version: 1 });
    equal(&rt, answered, Answered::Done(Reply::Value(1)));
}
