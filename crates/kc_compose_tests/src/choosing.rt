//! By a reply, the next: one of two, and an operation at a location that is a field.

ghost use Rattle.std.specs.Prelude.{◌≡◌, ◌<◌, if◌then◌else◌};
ghost use Rattle.kc_compose.specs.Sort.{is_of};
ghost use Rattle.kc_compose.specs.declared.one_of.OneOf.TheVariants as OneOf;
ghost use Rattle.kc_compose.specs.declared.sort.Sort.TheVariants as Sort;
ghost use Rattle.kc_loc.specs.declared.operation.LocOp.TheVariants as LocOp;
ghost use Rattle.kc_model.specs.declared.plain_store.TheConstants.{MOST_LOCATIONS};
ghost use Rattle.kc_queue.specs.Meaning.{queue_cells_end};
ghost use Rattle.kc_queue.specs.declared.operation.QueueAct.TheVariants as QueueAct;

use crate::asserts::{replies, waits};
use crate::yard::open;
use kc_compose::{Fed, Feed, Follow, OneOf, Say, Sort, Then};
use kc_loc::LocOp;
use kc_model::{Loc, Reply};
use kc_queue::{Queue, QueueAct, QueueOp};
use kc_xt::Transact;
use std::test::Fail;

/// Where the one line was empty, takes from the other, and waits there.
#[derive(Clone, Copy)]
struct ElseFrom {
    other: Queue,
}

impl Follow for ElseFrom {
    type Next = OneOf<QueueOp, Say>;

    ghost next = { λ e a. if is_of Sort.Empty a then OneOf.First (record { queue = e.other; act = QueueAct.DeqWait }) else OneOf.Second (record { reply = a }) };

    ghost furthest = { λ e. queue_cells_end e.other };

    fn furthest_end(&self) -> u32 {
        let take = QueueOp {
            queue: self.other,
            act: QueueAct::DeqWait,
        };
        take.bound()
    }

    fn follow(&self, reply: &Reply) -> OneOf<QueueOp, Say> {
        if Sort::Empty.has(reply) {
            OneOf::First(QueueOp {
                queue: self.other,
                act: QueueAct::DeqWait,
            })
        } else {
            OneOf::Second(Say { reply: *reply })
        }
    }
}

/// Adds the number to a sum, and replies what it was.
#[derive(Clone, Copy)]
struct Count {
    sum: Loc,
}

impl Feed for Count {
    type Next = LocOp;

    ghost fed = { λ c number. LocOp.FetchAdd c.sum number };

    ghost is_ready = { λ c. c.sum.0 < MOST_LOCATIONS };

    fn feed(&self, number: u32) -> LocOp {
        LocOp::FetchAdd(self.sum, number)
    }
}

#[test]
fn the_other_line_is_asked_where_the_one_is_empty(rt: HostRuntime) -> Result<(), Fail> {
    let (y, mut store) = open(rt.alloc())?;
    let take = Then {
        first: QueueOp {
            queue: y.ready,
            act: QueueAct::Deq,
        },
        behind: ElseFrom { other: y.line },
    };
    let add = QueueOp {
        queue: y.line,
        act: QueueAct::Enq(8),
    };
    let urgent = QueueOp {
        queue: y.ready,
        act: QueueAct::Enq(9),
    };
    waits(&rt, &mut store, &take);
    replies(&rt, &mut store, &add, Reply::Unit);
    replies(&rt, &mut store, &urgent, Reply::Unit);
    replies(&rt, &mut store, &take, Reply::Value(9));
    replies(&rt, &mut store, &take, Reply::Value(8));
    Ok(())
}

#[test]
fn what_leaves_a_line_is_added_to_a_sum(rt: HostRuntime) -> Result<(), Fail> {
    let (y, mut store) = open(rt.alloc())?;
    let count = Fed {
        first: QueueOp {
            queue: y.line,
            act: QueueAct::Deq,
        },
        behind: Count { sum: y.sum },
    };
    let add = QueueOp {
        queue: y.line,
        act: QueueAct::Enq(8),
    };
    replies(&rt, &mut store, &count, Reply::Empty);
    replies(&rt, &mut store, &add, Reply::Unit);
    replies(&rt, &mut store, &count, Reply::Value(5));
    replies(&rt, &mut store, &LocOp::Get(y.sum), Reply::Value(13));
    Ok(())
}
