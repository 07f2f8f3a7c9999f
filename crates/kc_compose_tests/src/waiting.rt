//! Operations that wait in place of a reply.

ghost use Rattle.std.specs.Prelude.{◌≡◌};

use crate::asserts::{replies, waits};
use crate::yard::open;
use kc_compose::{Sort, WaitOn, enq_wait, push_wait, put_wait};
use kc_hash::{HashAct, HashOp};
use kc_loc::LocOp;
use kc_model::Reply;
use kc_queue::{QueueAct, QueueOp};
use kc_stack::{StackAct, StackOp};
use std::test::Fail;

#[test]
fn a_queue_that_is_full_waits(rt: HostRuntime) -> Result<(), Fail> {
    let (y, mut store) = open(rt.alloc())?;
    replies(&rt, &mut store, &enq_wait(y.ready, 3), Reply::Unit);
    waits(&rt, &mut store, &enq_wait(y.ready, 4));
    let deq = QueueOp {
        queue: y.ready,
        act: QueueAct::Deq,
    };
    replies(&rt, &mut store, &deq, Reply::Value(3));
    replies(&rt, &mut store, &enq_wait(y.ready, 4), Reply::Unit);
    replies(&rt, &mut store, &deq, Reply::Value(4));
    Ok(())
}

#[test]
fn a_stack_that_is_full_waits(rt: HostRuntime) -> Result<(), Fail> {
    let (y, mut store) = open(rt.alloc())?;
    replies(&rt, &mut store, &push_wait(y.seats, 3), Reply::Unit);
    waits(&rt, &mut store, &push_wait(y.seats, 4));
    let pop = StackOp {
        stack: y.seats,
        act: StackAct::Pop,
    };
    replies(&rt, &mut store, &pop, Reply::Value(3));
    replies(&rt, &mut store, &push_wait(y.seats, 4), Reply::Unit);
    Ok(())
}

#[test]
fn a_table_that_is_full_waits_for_a_new_key_alone(rt: HostRuntime) -> Result<(), Fail> {
    let (y, mut store) = open(rt.alloc())?;
    replies(&rt, &mut store, &put_wait(y.results, 1, 10), Reply::Unit);
    waits(&rt, &mut store, &put_wait(y.results, 2, 20));
    replies(&rt, &mut store, &put_wait(y.results, 1, 11), Reply::Unit);
    let del = HashOp {
        hash: y.results,
        act: HashAct::Del(1),
    };
    replies(&rt, &mut store, &del, Reply::Value(11));
    replies(&rt, &mut store, &put_wait(y.results, 2, 20), Reply::Unit);
    Ok(())
}

#[test]
fn a_number_may_be_waited_away(rt: HostRuntime) -> Result<(), Fail> {
    let (y, mut store) = open(rt.alloc())?;
    let not_five = WaitOn {
        of: LocOp::Get(y.sum),
        at: Sort::Is(5),
    };
    waits(&rt, &mut store, &not_five);
    replies(&rt, &mut store, &LocOp::Incr(y.sum), Reply::Unit);
    replies(&rt, &mut store, &not_five, Reply::Value(6));
    Ok(())
}
