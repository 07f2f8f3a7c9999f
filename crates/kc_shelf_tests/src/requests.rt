//! Requests with payloads, from two threads to two others, by a queue of their tickets.

ghost use Rattle.std.specs.Prelude.{◌≡◌, ◌≤◌, ◌<◌};

use crate::shop::{Four, Load, Shop, Tally, add, ended_well, give_up, open, put, reply};
use kc_model::Reply;
use kc_queue::{QueueAct, QueueOp};
use kc_store::Caller;
use std::alloc::Global;
use std::sync::Wait;
use std::sync::atomic::Ordering::SeqCst;
use std::test::Fail;
use std::thread;
use std::thread::Threads;

// By each of the two threads that make them.
const REQUESTS: u32 = 500_000;

// Puts a ticket at the back of the queue, as soon as there is room.
fn send<R: Wait>(rt: &R, shop: &Shop<'_>, caller: &mut Caller, ticket: u32)
    requires { caller.old.of ≡ shop.now.store }
    ensures { caller.new.of ≡ caller.old.of }
{
    let op = QueueOp {
        queue: shop.jobs,
        act: QueueAct::Enq(ticket),
    };
    'tries: for _ in rt.forever() {
        if reply(rt, shop, caller, &op) == Some(Reply::Unit) {
            return;
        }
        thread::yield_now();
    }
}

fn make<'a, R: Wait>(
    rt: &R,
    alloc: Global,
    shop: &Shop<'a>,
    mut caller: Caller,
    tally: &'a Tally,
    first: u32,
) -> Caller
    requires { caller.of ≡ shop.now.store }
    ensures { result.of ≡ caller.of }
{
    'requests: for i in 0..REQUESTS {
        if let Some(value) = Load::new(alloc, tally, first.wrapping_add(i)) {
            match put(rt, shop, &mut caller, value) {
                Some(ticket) => send(rt, shop, &mut caller, ticket),
                None => add(&tally.bad),
            }
        }
    }
    caller
}

// Reads a request where it lies, and gives it up.
fn serve<R: Wait>(rt: &R, shop: &Shop<'_>, caller: &mut Caller, tally: &Tally, ticket: u32)
    requires { caller.old.of ≡ shop.now.store }
    ensures { caller.new.of ≡ caller.old.of }
{
    if shop.pool.read(ticket, |load: &Load<'_>| load.is_whole()) == Some(true) {
        add(&tally.read);
    } else {
        add(&tally.bad);
    }
    give_up(rt, shop, caller, tally, ticket);
}

// Serves until all requests were taken.
fn work<R: Wait>(rt: &R, shop: &Shop<'_>, mut caller: Caller, tally: &Tally) -> Caller
    requires { caller.of ≡ shop.now.store }
    ensures { result.of ≡ caller.of }
{
    let op = QueueOp {
        queue: shop.jobs,
        act: QueueAct::Deq,
    };
    'requests: for _ in rt.forever() {
        if tally.out.load(SeqCst) >= 2 * REQUESTS as usize {
            break;
        }
        if let Some(Reply::Value(ticket)) = reply(rt, shop, &mut caller, &op) {
            serve(rt, shop, &mut caller, tally, ticket);
        } else {
            thread::yield_now();
        }
    }
    caller
}

fn pair<'a, R: Threads + Wait + Sync>(
    rt: &R,
    alloc: Global,
    shop: &Shop<'a>,
    maker: Caller,
    worker: Caller,
    tally: &'a Tally,
    first: u32,
) -> (Caller, Caller)
    requires maker { maker.of ≡ shop.now.store }
    requires worker { worker.of ≡ shop.now.store }
{
    thread::join(
        rt,
        move || make(rt, alloc, shop, maker, tally, first),
        move || work(rt, shop, worker, tally),
    )
}

fn by_four<'a, R: Threads + Wait + Sync>(
    rt: &R,
    alloc: Global,
    shop: &Shop<'a>,
    four: Four,
    tally: &'a Tally,
)
    requires a { four.a.of ≡ shop.now.store }
    requires b { four.b.of ≡ shop.now.store }
    requires c { four.c.of ≡ shop.now.store }
    requires d { four.d.of ≡ shop.now.store }
{
    let Four { a, b, c, d } = four;
    thread::join(
        rt,
        move ||
            requires { (a.of ≡ shop.now.store) × (b.of ≡ shop.now.store) }
        { pair(rt, alloc, shop, a, b, tally, 0) },
        move ||
            requires { (c.of ≡ shop.now.store) × (d.of ≡ shop.now.store) }
        { pair(rt, alloc, shop, c, d, tally, REQUESTS) },
    );
}

#[test]
fn each_request_is_made_read_and_dropped_once(rt: HostRuntime) -> Result<(), Fail> {
    let tally = Tally::new();
    let Some((shop, four)) = open(rt.alloc()) else {
        return Err(Fail::from("not opened"));
    };
    by_four(&rt, rt.alloc(), &shop, four, &tally);
    ended_well(&rt, &tally, 2 * REQUESTS);
    Ok(())
}
