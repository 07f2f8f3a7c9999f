//! A kitchen: a waiter orders a dish, and a cook takes the order and puts the dish into a hatch, in one step.
#![tactic(auto)]

ghost use Rattle.std.specs.Prelude.{◌≡◌, ◌≤◌};
ghost use Rattle.kc_cells.specs.Mvar.{mvar_cells_end};
ghost use Rattle.kc_cells.specs.declared.mvar.MvarAct.TheVariants as MvarAct;
ghost use Rattle.kc_queue.specs.Meaning.{queue_cells_end};

use kc_cells::{Mvar, MvarAct, MvarOp};
use kc_compose::{Fed, Feed};
use kc_keep::{commit_replied, open_for_two};
use kc_lay::Layout;
use kc_model::Reply;
use kc_queue::{QueueAct, QueueOp};
use kc_store::{Caller, Store};
use std::sync::Wait;
use std::{io, thread};

/// Puts a dish into the hatch, and waits while that is full.
#[derive(Clone, Copy)]
struct IntoHatch {
    hatch: Mvar,
}

impl Feed for IntoHatch {
    type Next = MvarOp;

    ghost fed = { λ i dish. record { mvar = i.hatch; act = MvarAct.Put dish } };

    fn feed(&self, dish: u32) -> MvarOp {
        MvarOp {
            mvar: self.hatch,
            act: MvarAct::Put(dish),
        }
    }
}

/// Orders a dish, and waits for it.
fn order_and_take<R: Wait>(
    rt: &R,
    store: &Store,
    mut waiter: Caller,
    order: &QueueOp,
    take: &MvarOp,
) -> Option<Reply>
    requires waiter { waiter.of ≡ store.now }
    requires order { queue_cells_end order.now.queue ≤ store.now.locations }
    requires take { mvar_cells_end take.now.mvar ≤ store.now.locations }
{
    commit_replied(rt, store, &mut waiter, order);
    commit_replied(rt, store, &mut waiter, take)
}

fn main(rt: HostRuntime) -> io::Result<()> {
    let mut layout = Layout::new(rt.alloc());
    let orders = layout.queue(4)?;
    let hatch = layout.mvar()?;
    let (store, waiter, mut cook) = open_for_two(rt.alloc(), &layout)?;
    let cook_next = Fed {
        first: QueueOp {
            queue: orders,
            act: QueueAct::DeqWait,
        },
        behind: IntoHatch { hatch },
    };
    let order = QueueOp {
        queue: orders,
        act: QueueAct::Enq(7),
    };
    let take = MvarOp {
        mvar: hatch,
        act: MvarAct::Take,
    };
    let shared = &store;
    let runtime = &rt;
    let (cooked, served) = thread::join(
        &rt,
        move || commit_replied(runtime, shared, &mut cook, &cook_next),
        move || order_and_take(runtime, shared, waiter, &order, &take),
    );
    println!(rt; "the cook: {cooked:?}, the waiter: {served:?}")
}
