//! A cook and a waiter on the kitchen's store, each by a thread.

ghost use Rattle.std.specs.Prelude.{◌≡◌, ◌≤◌, IfSome, length};
ghost use Rattle.kc_kitchen.specs.Kitchen.{HasKitchen};
ghost use Rattle.kc_kitchen.specs.Serving.{Replied};
ghost use Rattle.kc_store.specs.Knows.{Remembers};
ghost use Rattle.kc_xt.specs.Meaning.{limited};

use crate::kitchen::{Kitchen, cook_next};
use kc_await::commit_waiting;
use kc_cells::{MvarAct, MvarOp};
use kc_lay::Layout;
use kc_model::Reply;
use kc_queue::{QueueAct, QueueOp};
use kc_store::{Caller, Outcome, Store, what_is_known_stays_known};
use kc_xt::Transact;
use std::alloc::Global;
use std::io::Print;
use std::sync::Wait;
use std::thread::Threads;
use std::{io, thread};

// How many dishes are ordered.
const ORDERS: u32 = 3;

/// The waiter orders dishes and serves each as it comes, while the cook cooks.
pub fn serve<R: Print + Threads + Wait + Sync>(
    rt: &R,
    alloc: Global,
    kitchen: &Kitchen,
    layout: &Layout,
) -> io::Result<()>
    requires { HasKitchen kitchen.now (length layout.now) }
{
    let Ok((store, mut callers)) = Store::open(alloc, layout.values(), 2) else {
        return Err(io::ErrorKind::OutOfMemory.into());
    };
    let (Some(waiter), Some(cook)) = (callers.pop(), callers.pop()) else {
        unreachable!("a store has as many callers as it was opened for");
    };
    let shared = &store;
    let (_cook, (_waiter, served)) = thread::join(
        rt,
        move || cook_all(rt, shared, cook, kitchen),
        move || order_and_serve(rt, shared, waiter, kitchen),
    );
    println!(rt; "dishes served: {served}")
}

// Cooks as many dishes as are ordered.
fn cook_all<R: Wait>(rt: &R, store: &Store, mut cook: Caller, kitchen: &Kitchen) -> Caller
    requires cook { cook.of ≡ store.now }
    requires kitchen { HasKitchen kitchen.now store.now.locations }
    ensures { Remembers cook result }
{
    what_is_known_stays_known();
    for _ in 0..ORDERS {
        commit(rt, store, &mut cook, &cook_next(kitchen));
    }
    cook
}

// Orders dishes, and counts those that come out in order.
fn order_and_serve<R: Wait>(
    rt: &R,
    store: &Store,
    mut waiter: Caller,
    kitchen: &Kitchen,
) -> (Caller, u32)
    requires waiter { waiter.of ≡ store.now }
    requires kitchen { HasKitchen kitchen.now store.now.locations }
    ensures { Remembers waiter result.0 }
{
    what_is_known_stays_known();
    let mut served: u32 = 0;
    for dish in 1..ORDERS + 1 {
        let order = QueueOp {
            queue: kitchen.orders,
            act: QueueAct::Enq(dish),
        };
        commit(rt, store, &mut waiter, &order);
        let take = MvarOp {
            mvar: kitchen.hatch,
            act: MvarAct::Take,
        };
        if commit(rt, store, &mut waiter, &take) == Some(Reply::Value(dish)) {
            served = served.wrapping_add(1);
        }
    }
    (waiter, served)
}

// Commits a transaction, where it would wait as soon as it needn't: its reply.
fn commit<R: Wait, T: Transact>(
    rt: &R,
    store: &Store,
    caller: &mut Caller,
    transaction: &T,
) -> Option<Reply>
    requires caller { caller.old.of ≡ store.now }
    requires fit { T.is_fit transaction.now }
    requires within { T.end transaction.now ≤ store.now.locations }
    ensures remembers { Remembers caller.old caller.new }
    ensures replied { IfSome result (λ reply. Replied (limited (T.most transaction.now) (T.meaning transaction.now)) reply caller.old caller.new) }
{
    match commit_waiting(rt, store, caller, transaction) {
        Outcome::Done {
            reply,
            footprint: _,
        } => Some(reply),
        _ => None,
    }
}
