//! Views: transactions that put nothing, and leave no entry.

ghost use Rattle.std.specs.Prelude.{◌≡◌, ◌≤◌};
ghost use Rattle.kc_loc.specs.Meaning.{LocIsFit, loc_end};
ghost use Rattle.kc_model.specs.declared.reply.Reply.TheVariants as reply;
ghost use Rattle.kc_xt.specs.Program.{meaning, replies};

use crate::asserts::equal;
use crate::overtaken::Halfway;
use crate::trying::{first_read, open_alone, open_worn, opened};
use kc_loc::{LocOp, Rel};
use kc_model::{Footprint, Loc, MOST, Reply, Seen};
use kc_store::{Answered, Caller, Glimpse, Store, Viewed};
use kc_xt::{Peek, Stop, Transact, Xt};
use std::process::Abort;
use std::sync::{Barrier, Wait};
use std::thread;
use std::thread::Threads;

const ADD: LocOp = LocOp::FetchAdd(Loc(0), 1);

const GET: LocOp = LocOp::Get(Loc(0));

const UNTIL_NINE: LocOp = LocOp::Check(Loc(0), Rel::Eq, 9);

// One view.
fn glimpsed<T: Transact>(
    store: &Store,
    caller: &mut Caller,
    transaction: &T,
    footprint: &mut Footprint,
) -> Glimpse
    requires caller { caller.old.of ≡ store.now }
    requires fit { T.is_fit transaction.now }
    requires within { T.end transaction.now ≤ store.now.locations }
    ensures of { caller.new.of ≡ caller.old.of }
{
    store.try_view_into(caller, transaction, footprint)
}

// A view that ends.
fn viewed<R: Wait, T: Transact>(
    rt: &R,
    store: &Store,
    caller: &mut Caller,
    transaction: &T,
) -> Viewed
    requires caller { caller.old.of ≡ store.now }
    requires fit { T.is_fit transaction.now }
    requires within { T.end transaction.now ≤ store.now.locations }
    ensures of { caller.new.of ≡ caller.old.of }
{
    store.view_into(rt, caller, transaction, &mut Footprint::new())
}

#[test]
fn a_view_looks_twice(rt: HostRuntime) {
    let (store, mut a) = open_alone(&rt, &[5]);
    let mut footprint = Footprint::new();
    let first = glimpsed(&store, &mut a, &GET, &mut footprint);
    equal(&rt, first, Glimpse::Done(Reply::Value(5)));
    equal(&rt, first_read(&footprint), Some((0, 5)));
    equal(&rt, a.steps(), 2);
    let again = viewed(&rt, &store, &mut a, &GET);
    equal(&rt, again, Viewed::Done(Reply::Value(5)));
    equal(&rt, a.steps(), 4);
}

#[test]
fn a_view_that_would_put_does_nothing(rt: HostRuntime) {
    let (store, mut a) = open_alone(&rt, &[5]);
    let mut footprint = Footprint::new();
    let once = glimpsed(&store, &mut a, &ADD, &mut footprint);
    equal(&rt, once, Glimpse::Puts);
    equal(&rt, viewed(&rt, &store, &mut a, &ADD), Viewed::Puts);
    let untouched = Seen {
        loc: Loc(0),
        version: 0,
        value: 5,
    };
    equal(&rt, store.read(&mut a, Loc(0)), Ok(untouched));
}

#[test]
fn a_view_that_would_wait_says_so(rt: HostRuntime) {
    let (store, mut a) = open_alone(&rt, &[5]);
    let mut footprint = Footprint::new();
    let once = glimpsed(&store, &mut a, &UNTIL_NINE, &mut footprint);
    equal(&rt, once, Glimpse::Later);
    equal(&rt, first_read(&footprint), Some((0, 5)));
    equal(&rt, viewed(&rt, &store, &mut a, &UNTIL_NINE), Viewed::Later);
}

#[test]
fn a_view_needs_no_descriptor(rt: HostRuntime) {
    let (store, mut a) = open_worn(&rt);
    let mut footprint = Footprint::new();
    let once = glimpsed(&store, &mut a, &GET, &mut footprint);
    equal(&rt, once, Glimpse::Done(Reply::Value(5)));
}

// Replies at once.
#[derive(Drop)]
struct Nothing;

impl Transact for Nothing {
    ghost meaning = { λ _. meaning (replies reply.Unit) };

    ghost is_fit = { λ _. Unit {0} };

    ghost end = { λ _. 0 };

    fn bound(&self) -> u32 {
        0
    }

    fn limit(&self) -> u32 {
        MOST as u32
    }

    fn run<P: Peek>(&self, _xt: &mut Xt<P>) -> Result<Reply, Stop> {
        Ok(Reply::Unit)
    }
}

#[test]
fn a_view_of_nothing_makes_no_step(rt: HostRuntime) {
    let (store, mut a) = open_alone(&rt, &[5]);
    let mut footprint = Footprint::new();
    let once = glimpsed(&store, &mut a, &Nothing, &mut footprint);
    equal(&rt, once, Glimpse::Done(Reply::Unit));
    equal(&rt, first_read(&footprint), None);
    let again = viewed(&rt, &store, &mut a, &Nothing);
    equal(&rt, again, Viewed::Done(Reply::Unit));
    equal(&rt, a.steps(), 0);
}

// ---- beside a writer that puts within each try

// A view with the other's turn in each of its tries.
fn view_halfway<R: Wait>(
    rt: &R,
    store: &Store,
    mut caller: Caller,
    turn: &Barrier,
    operation: LocOp,
) -> Viewed
    requires caller { caller.of ≡ store.now }
    requires fit { LocIsFit operation }
    requires within { loc_end operation ≤ store.now.locations }
{
    let halfway = Halfway {
        operation: &operation,
        rt,
        turn,
    };
    viewed(rt, store, &mut caller, &halfway)
}

// Commits an addition in so many turns, and has one turn more in which it does nothing.
fn add_in_turns<R: Wait>(rt: &R, store: &Store, mut caller: Caller, turn: &Barrier, times: u32)
    requires caller { caller.of ≡ store.now }
    requires location { 1 ≤ store.now.locations }
{
    let mut footprint = Footprint::new();
    for _ in 0..times {
        turn.wait(rt);
        store.commit_into(rt, &mut caller, &ADD, &mut footprint);
        turn.wait(rt);
    }
    turn.wait(rt);
    turn.wait(rt);
}

// What a view of the first of two locations, at 5, comes to where an addition is committed within each of so many tries.
fn viewed_beside<R: Abort + AllocGlobal + Threads + Wait + Sync>(rt: &R, times: u32) -> Viewed {
    let (store, a, b) = opened(rt, &[5, 7]);
    let shared = &store;
    let barrier = Barrier::new(2);
    let turn = &barrier;
    let (viewed, _) = thread::join(
        rt,
        move || view_halfway(rt, shared, a, turn, GET),
        move || add_in_turns(rt, shared, b, turn, times),
    );
    viewed
}

#[test]
fn a_view_beside_a_writer_ends(rt: HostRuntime) {
    // Not spoiled, spoiled once, at all but the last try, and at each try: then it is committed, behind eight additions.
    for (times, value) in [(0, 5), (1, 6), (7, 12)] {
        let done = Viewed::Done(Reply::Value(value));
        equal(&rt, viewed_beside(&rt, times), done);
    }
    let committed = Viewed::Committed(Answered::Done(Reply::Value(13)));
    equal(&rt, viewed_beside(&rt, 8), committed);
}
