//! Tries and commits by callers of a store, and threads that count.

ghost use Rattle.std.specs.Prelude.{◌≡◌, ◌+◌, ◌<◌, ◌≤◌, length, IfOk, IfSome};
ghost use Rattle.kc_hash.specs.Meaning.{hash_cells_end};

use crate::asserts::{equal, holds};
use kc_hash::{Hash, HashAct, HashOp};
use kc_loc::{LocOp, Rel};
use kc_model::{Footprint, LAST_VERSION, Loc, MOST, OpenError, Reply};
use kc_store::{Answered, Caller, LAST_GENERATION, Outcome, Store, Try, Verdict, Wear};
use kc_xt::Transact;
use std::process::Abort;
use std::sync::Wait;
use std::test::Fail;
use std::thread;
use std::thread::Threads;

const ADD: LocOp = LocOp::FetchAdd(Loc(0), 1);

const GET: LocOp = LocOp::Get(Loc(0));

// A store of these values, and two callers.
fn open_two(rt: &impl AllocGlobal, values: &[u32]) -> Option<(Store, Caller, Caller)>
    ensures of { IfSome result (λ t. (t.1.of ≡ t.0) × (t.2.of ≡ t.0)) }
    ensures locations { IfSome result (λ t. t.0.locations ≡ length values.now) }
{
    let Ok((store, mut callers)) = Store::open(rt.alloc(), values, 2) else {
        return None;
    };
    let second = callers.pop()?;
    let first = callers.pop()?;
    Some((store, first, second))
}

// The same, where a test can't go on without them.
pub(crate) fn opened(rt: &(impl Abort + AllocGlobal), values: &[u32]) -> (Store, Caller, Caller)
    ensures of { (result.1.of ≡ result.0) × (result.2.of ≡ result.0) }
    ensures locations { result.0.locations ≡ length values.now }
{
    open_two(rt, values).expect(rt, "not opened")
}

// A store of one location at 5 whose pool is at its last generation, and its only caller.
pub(crate) fn open_worn(rt: &(impl Abort + AllocGlobal)) -> (Store, Caller)
    ensures of { result.1.of ≡ result.0 }
    ensures one { (result.0.locations ≡ 1) × (result.0.callers ≡ 1) }
{
    let opened = Store::open_at(rt.alloc(), &[5], &[0], 1, LAST_GENERATION);
    let (store, mut callers) = opened.expect(rt, "not opened");
    let caller = callers.pop().expect(rt, "no caller");
    (store, caller)
}

// A store of these values, and its only caller.
pub(crate) fn open_alone(rt: &(impl Abort + AllocGlobal), values: &[u32]) -> (Store, Caller)
    ensures of { result.1.of ≡ result.0 }
    ensures numbers { (result.0.locations ≡ length values.now) × (result.0.callers ≡ 1) }
{
    let opened = Store::open(rt.alloc(), values, 1);
    let (store, mut callers) = opened.expect(rt, "not opened");
    let caller = callers.pop().expect(rt, "no caller");
    (store, caller)
}

// One try.
fn tried<T: Transact>(
    store: &Store,
    caller: &mut Caller,
    transaction: &T,
    footprint: &mut Footprint,
) -> Verdict
    requires caller { caller.old.of ≡ store.now }
    requires fit { T.is_fit transaction.now }
    requires within { T.end transaction.now ≤ store.now.locations }
    ensures of { caller.new.of ≡ caller.old.of }
{
    store.try_commit_into(caller, transaction, footprint)
}

// The version and the value of the first read.
pub(crate) fn first_read(footprint: &Footprint) -> Option<(u32, u32)> {
    let read = footprint.reads.as_slice().get(0).copied()?;
    Some((read.version, read.value))
}

fn zeros(rt: &HostRuntime, count: usize) -> Result<Vec<u32>, Fail> {
    Ok(vec![in rt.alloc(); 0u32; count]?)
}

// Why no store of these values and callers is opened.
fn refusal(rt: &HostRuntime, values: &[u32], callers: u32) -> Option<OpenError> {
    Store::open(rt.alloc(), values, callers).err()
}

// The same of a store of one location that opens at a version.
fn refusal_at(rt: &HostRuntime, callers: u32) -> Option<OpenError> {
    Store::open_at(rt.alloc(), &[5], &[0], callers, 0).err()
}

#[test]
fn open_refuses_by_number(rt: HostRuntime) -> Result<(), Fail> {
    let too_many = Some(OpenError::TooManyCallers);
    let many = zeros(&rt, 65_537)?;
    equal(&rt, refusal(&rt, &many, 1), Some(OpenError::TooManyLocs));
    for callers in [0, 65] {
        let refused = (refusal(&rt, &[5], callers), refusal_at(&rt, callers));
        equal(&rt, refused, (too_many, too_many));
    }
    equal(&rt, refusal(&rt, &[5, 6, 7], 2), None);
    Ok(())
}

#[test]
fn two_callers_put_in_turn(rt: HostRuntime) {
    let (store, mut a, mut b) = opened(&rt, &[5]);
    let mut footprint = Footprint::new();
    let first = tried(&store, &mut a, &ADD, &mut footprint);
    equal(&rt, first, Verdict::Done(Reply::Value(5)));
    // A look, an exchange and a wake.
    equal(&rt, a.steps(), 3);
    equal(&rt, (footprint.reads.len(), footprint.puts.len()), (1, 1));
    let second = tried(&store, &mut b, &ADD, &mut footprint);
    equal(&rt, second, Verdict::Done(Reply::Value(6)));
    equal(&rt, first_read(&footprint), Some((1, 6)));
    let third = tried(&store, &mut a, &GET, &mut footprint);
    equal(&rt, third, Verdict::Done(Reply::Value(7)));
    equal(
        &rt,
        (first_read(&footprint), footprint.puts.len()),
        (Some((2, 7)), 0),
    );
}

#[test]
fn what_would_wait_is_for_later(rt: HostRuntime) -> Result<(), Fail> {
    let (store, mut a, _b) = opened(&rt, &[0]);
    let mut footprint = Footprint::new();
    let until_one = LocOp::Check(Loc(0), Rel::Eq, 1);
    equal(
        &rt,
        tried(&store, &mut a, &until_one, &mut footprint),
        Verdict::Later,
    );
    equal(
        &rt,
        (first_read(&footprint), footprint.puts.len()),
        (Some((0, 0)), 0),
    );
    let Try::Later { footprint } = store.try_commit(&mut a, &until_one) else {
        return Err(Fail::from("another answer"));
    };
    equal(&rt, footprint.reads.len(), 1);
    Ok(())
}

// More keys in one bucket than a put can go by.
const KEYS: u32 = 130;

// How many keys are put before a put is too large.
fn puts(store: &Store, caller: &mut Caller, hash: Hash, footprint: &mut Footprint) -> u32
    requires caller { caller.old.of ≡ store.now }
    requires within { hash_cells_end hash ≤ store.now.locations }
{
    for key in 0..KEYS {
        let act = HashAct::Put(key, key);
        if tried(store, caller, &HashOp { hash, act }, footprint) == Verdict::TooLarge {
            return key;
        }
    }
    KEYS
}

#[test]
fn a_long_chain_is_too_large(rt: HostRuntime) -> Result<(), Fail> {
    let hash = Hash::layout(Loc(0), 1, KEYS);
    let mut values = vec![in rt.alloc(); 0u32; hash.cells() as usize]?;
    for i in 0..values.len() {
        values[i] = hash.opening(i as u32);
    }
    let (store, mut a, _b) = opened(&rt, &values);
    let mut footprint = Footprint::new();
    equal(&rt, puts(&store, &mut a, hash, &mut footprint), 126);
    equal(
        &rt,
        (footprint.reads.len(), footprint.puts.len()),
        (MOST, 0),
    );
    Ok(())
}

#[test]
fn a_location_at_its_last_version_is_worn(rt: HostRuntime) -> Result<(), Fail> {
    let opened = Store::open_at(rt.alloc(), &[5], &[LAST_VERSION - 1], 1, 0);
    let (store, mut callers) = opened.expect(&rt, "not opened");
    let mut a = callers.pop().expect(&rt, "no caller");
    let mut footprint = Footprint::new();
    let last = tried(&store, &mut a, &ADD, &mut footprint);
    equal(&rt, last, Verdict::Done(Reply::Value(5)));
    let worn = tried(&store, &mut a, &ADD, &mut footprint);
    equal(&rt, worn, Verdict::WornLocation(Loc(0)));
    equal(
        &rt,
        (first_read(&footprint), footprint.puts.len()),
        (Some((LAST_VERSION, 6)), 0),
    );
    let Outcome::Worn(Wear::Location { loc, footprint: _ }) = store.commit(&rt, &mut a, &ADD) else {
        return Err(Fail::from("another answer"));
    };
    equal(&rt, loc, Loc(0));
    Ok(())
}

#[test]
fn a_pool_at_its_last_generation_is_worn(rt: HostRuntime) {
    let (store, mut a) = open_worn(&rt);
    let mut footprint = Footprint::new();
    equal(
        &rt,
        tried(&store, &mut a, &GET, &mut footprint),
        Verdict::WornPool,
    );
    equal(
        &rt,
        store.commit_into(&rt, &mut a, &GET, &mut footprint),
        Answered::WornPool,
    );
}

#[test]
fn who_was_told_worn_pool_is_told_nothing_but_that(rt: HostRuntime) {
    let (store, mut a) = open_worn(&rt);
    let mut footprint = Footprint::new();
    equal(
        &rt,
        tried(&store, &mut a, &GET, &mut footprint),
        Verdict::WornPool,
    );
    equal(
        &rt,
        tried(&store, &mut a, &ADD, &mut footprint),
        Verdict::WornPool,
    );
    equal(&rt, footprint.puts.len(), 0);
    equal(
        &rt,
        store.commit_into(&rt, &mut a, &ADD, &mut footprint),
        Answered::WornPool,
    );
}

#[test]
fn one_put_needs_no_descriptor(rt: HostRuntime) {
    let (store, mut a) = open_worn(&rt);
    let mut footprint = Footprint::new();
    equal(
        &rt,
        tried(&store, &mut a, &ADD, &mut footprint),
        Verdict::Done(Reply::Value(5)),
    );
    equal(
        &rt,
        store.commit_into(&rt, &mut a, &ADD, &mut footprint),
        Answered::Done(Reply::Value(6)),
    );
}

#[test]
fn a_note_passes_on_what_a_caller_knows(rt: HostRuntime) {
    let (store, mut a, mut b) = opened(&rt, &[5]);
    let mut footprint = Footprint::new();
    tried(&store, &mut a, &ADD, &mut footprint);
    let note = store.note(&mut a);
    store.learn(&mut b, note);
    equal(&rt, b.steps(), 0);
}

// Adds one to the first location, so often.
fn count<R: Wait>(rt: &R, store: &Store, mut caller: Caller, times: u32) -> Caller
    requires caller { caller.of ≡ store.now }
    requires location { 0 < store.now.locations }
    ensures of { result.of ≡ store.now }
{
    let mut footprint = Footprint::new();
    for _ in 0..times {
        store.commit_into(rt, &mut caller, &ADD, &mut footprint);
    }
    caller
}

// The same by two threads.
fn count_both<R: Threads + Wait + Sync>(
    rt: &R,
    store: &Store,
    a: Caller,
    b: Caller,
) -> (Caller, Caller)
    requires first { a.of ≡ store.now }
    requires second { b.of ≡ store.now }
    requires location { 0 < store.now.locations }
    ensures first { result.0.of ≡ store.now }
    ensures second { result.1.of ≡ store.now }
{
    thread::join(
        rt,
        move || count(rt, store, a, 1_000),
        move || count(rt, store, b, 1_000),
    )
}

#[test]
fn four_threads_count(rt: HostRuntime) {
    let (store, mut callers) = Store::open(rt.alloc(), &[0], 4).expect(&rt, "not opened");
    let d = callers.pop().expect(&rt, "no caller");
    let c = callers.pop().expect(&rt, "no caller");
    let b = callers.pop().expect(&rt, "no caller");
    let a = callers.pop().expect(&rt, "no caller");
    let (shared, run) = (&store, &rt);
    let ((mut a, _b), _) = thread::join(
        run,
        move || count_both(run, shared, a, b),
        move || count_both(run, shared, c, d),
    );
    let mut footprint = Footprint::new();
    let all = store.commit_into(&rt, &mut a, &LocOp::Get(Loc(0)), &mut footprint);
    equal(&rt, all, Answered::Done(Reply::Value(4_000)));
    equal(&rt, first_read(&footprint), Some((4_000, 4_000)));
}
