//! Queues.

ghost use Rattle.std.specs.Prelude.{◌≡◌};

use crate::asserts::{is, open, tells};
use kc_model::{Loc, MOST, Reply};
use kc_queue::{Queue, QueueAct, QueueOp};
use kc_xt::{PlainPeek, Room, Stop, Xt};
use std::test::Fail;

fn on(queue: Queue, act: QueueAct) -> QueueOp
    ensures { result.queue ≡ queue }
{
    QueueOp { queue, act }
}

#[test]
fn items_leave_in_the_order_they_came(rt: HostRuntime) -> Result<(), Fail> {
    let store = open(rt.alloc(), &[0, 0, 0, 0, 0])?;
    let mut room = Room::new();
    let mut xt = Xt::new(PlainPeek::new(&store), &mut room, MOST as u32);
    let q = Queue::layout(Loc(0), 3);
    is(&rt, q.cells(), 5);
    is(&rt, q.opening(4), 0);
    tells(&rt, &mut xt, &on(q, QueueAct::Enq(1)), Ok(Reply::Unit));
    tells(&rt, &mut xt, &on(q, QueueAct::Enq(2)), Ok(Reply::Unit));
    tells(&rt, &mut xt, &on(q, QueueAct::Deq), Ok(Reply::Value(1)));
    tells(&rt, &mut xt, &on(q, QueueAct::Enq(3)), Ok(Reply::Unit));
    tells(&rt, &mut xt, &on(q, QueueAct::Enq(4)), Ok(Reply::Unit));
    tells(&rt, &mut xt, &on(q, QueueAct::Enq(5)), Ok(Reply::Full));
    tells(&rt, &mut xt, &on(q, QueueAct::Deq), Ok(Reply::Value(2)));
    tells(&rt, &mut xt, &on(q, QueueAct::Front), Ok(Reply::Value(3)));
    tells(&rt, &mut xt, &on(q, QueueAct::Len), Ok(Reply::Value(2)));
    tells(&rt, &mut xt, &on(q, QueueAct::DeqWait), Ok(Reply::Value(3)));
    tells(&rt, &mut xt, &on(q, QueueAct::Deq), Ok(Reply::Value(4)));
    Ok(())
}

#[test]
fn an_empty_queue_waits_or_says_so(rt: HostRuntime) -> Result<(), Fail> {
    let store = open(rt.alloc(), &[7, 0, 0, 9])?;
    let mut room = Room::new();
    let mut xt = Xt::new(PlainPeek::new(&store), &mut room, MOST as u32);
    let q = Queue::layout(Loc(1), 1);
    tells(&rt, &mut xt, &on(q, QueueAct::Deq), Ok(Reply::Empty));
    tells(&rt, &mut xt, &on(q, QueueAct::Front), Ok(Reply::Empty));
    tells(&rt, &mut xt, &on(q, QueueAct::DeqWait), Err(Stop::Retry));
    tells(&rt, &mut xt, &on(q, QueueAct::Len), Ok(Reply::Value(0)));
    tells(&rt, &mut xt, &on(q, QueueAct::Enq(8)), Ok(Reply::Unit));
    tells(&rt, &mut xt, &on(q, QueueAct::DeqWait), Ok(Reply::Value(8)));
    Ok(())
}

#[test]
fn a_head_past_the_ring_counts_as_its_first_place(rt: HostRuntime) -> Result<(), Fail> {
    let store = open(rt.alloc(), &[2, 99, 5, 6, 7])?;
    let mut room = Room::new();
    let mut xt = Xt::new(PlainPeek::new(&store), &mut room, MOST as u32);
    let q = Queue::layout(Loc(0), 2);
    let count = q.count(&store);
    is(&rt, count, 2);
    if 1 < count {
        is(&rt, q.item(&store, 0), 5);
        is(&rt, q.item(&store, 1), 6);
    }
    tells(&rt, &mut xt, &on(q, QueueAct::Len), Ok(Reply::Value(2)));
    tells(&rt, &mut xt, &on(q, QueueAct::Enq(1)), Ok(Reply::Full));
    tells(&rt, &mut xt, &on(q, QueueAct::Front), Ok(Reply::Value(5)));
    tells(&rt, &mut xt, &on(q, QueueAct::Deq), Ok(Reply::Value(5)));
    tells(&rt, &mut xt, &on(q, QueueAct::Deq), Ok(Reply::Value(6)));
    tells(&rt, &mut xt, &on(q, QueueAct::Deq), Ok(Reply::Empty));
    Ok(())
}
