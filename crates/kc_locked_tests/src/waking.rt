//! Who sleeps is woken, and who waits sleeps: no clause says so.

ghost use Rattle.std.specs.Prelude.{◌≡◌, ◌<◌, length};

use crate::one::one;
use crate::watched::Watched;
use kc_loc::{LocOp, Rel};
use kc_locked::{LockPass, LockedStore};
use kc_model::Loc;
use kc_xt::rest;
use std::sync::Wait;
use std::test::Fail;
use std::thread;
use std::thread::Threads;

// Some milliseconds, in which who finds the lock taken goes to sleep.
const LONG: u32 = 1_000_000;

// Waits for its turn and hands it on, as often as the pass may do both.
fn take_turns<R: Wait>(rt: &R, store: &LockedStore, mut pass: LockPass, mine: u32, next: u32) -> u32
    requires pass { pass.table ≡ store.now.table }
    requires location { 0 < length store.now.opening }
{
    let mut turns: u32 = 0;
    while pass.left() >= 2 {
        one(rt, store, &mut pass, LocOp::Check(Loc(0), Rel::Eq, mine));
        one(rt, store, &mut pass, LocOp::Set(Loc(0), next));
        turns = turns.wrapping_add(1);
    }
    turns
}

// Two that take turns at once: the first hands on to the second, and this one to `next`.
fn take_turns_by_two<R: Threads + Wait + Sync>(
    rt: &R,
    store: &LockedStore,
    first: LockPass,
    second: LockPass,
    mine: u32,
    next: u32,
) -> (u32, u32)
    requires first { first.table ≡ store.now.table }
    requires second { second.table ≡ store.now.table }
    requires location { 0 < length store.now.opening }
{
    let between = mine.wrapping_add(1);
    thread::join(
        rt,
        move || take_turns(rt, store, first, mine, between),
        move || take_turns(rt, store, second, between, next),
    )
}

// Each of the four waits for the one before it 400 times, so a wait that isn't woken keeps the test for ever.
#[test]
fn four_threads_take_turns(rt: HostRuntime) -> Result<(), Fail> {
    let Ok((store, mut passes)) = LockedStore::open(rt.alloc(), &[0, 5], &[800, 800, 800, 800])
    else {
        panic!(rt; "the store was not opened");
    };
    let (Some(fourth), Some(third), Some(second), Some(first)) = (
        passes.pop(),
        passes.pop(),
        passes.pop(),
        passes.pop(),
    ) else {
        panic!(rt; "there are four passes");
    };
    let (rt, shared) = (&rt, &store);
    let turns = thread::join(
        rt,
        move || take_turns_by_two(rt, shared, first, second, 0, 2),
        move || take_turns_by_two(rt, shared, third, fourth, 2, 0),
    );
    assert_eq!(rt; turns, ((400, 400), (400, 400)));
    Ok(())
}

// Commits that take long, as many as the pass may make.
fn commit_slowly<R: Wait>(rt: &R, store: &LockedStore, mut pass: LockPass)
    requires pass { pass.table ≡ store.now.table }
    requires location { 0 < length store.now.opening }
{
    let slow = Watched::new(LocOp::Incr(Loc(0)), LONG);
    while pass.left() > 0 {
        store.commit_waiting(rt, &mut pass, &slow);
    }
}

// Three that always find the lock taken by another for long, and so sleep. One that isn't woken when the lock is given back keeps
// the test for ever, as the last of all does.
#[test]
fn who_sleeps_on_the_lock_is_woken(rt: HostRuntime) -> Result<(), Fail> {
    let Ok((store, mut passes)) = LockedStore::open(rt.alloc(), &[0], &[20, 20, 20]) else {
        panic!(rt; "the store was not opened");
    };
    let (Some(third), Some(second), Some(first)) = (passes.pop(), passes.pop(), passes.pop()) else {
        panic!(rt; "there are three passes");
    };
    let (rt, shared) = (&rt, &store);
    thread::join(
        rt,
        move || commit_slowly(rt, shared, first),
        move || commit_two_slowly(rt, shared, second, third),
    );
    Ok(())
}

fn commit_two_slowly<R: Threads + Wait + Sync>(
    rt: &R,
    store: &LockedStore,
    first: LockPass,
    second: LockPass,
)
    requires first { first.table ≡ store.now.table }
    requires second { second.table ≡ store.now.table }
    requires location { 0 < length store.now.opening }
{
    thread::join(
        rt,
        move || commit_slowly(rt, store, first),
        move || commit_slowly(rt, store, second),
    );
}

// Waits until the other has waited for long, and then sets what it waits for.
fn set_late<R: Wait>(rt: &R, store: &LockedStore, mut pass: LockPass, waits: &Watched)
    requires pass { (pass.table ≡ store.now.table) × (0 < pass.left) }
    requires location { 0 < length store.now.opening }
{
    for _ in rt.forever() {
        if waits.runs() > 0 {
            break;
        }
        thread::yield_now();
    }
    rest(10 * LONG);
    store.commit_waiting(rt, &mut pass, &LocOp::Set(Loc(0), 1));
}

// Who waits is run when it begins and behind a change, and sleeps meanwhile: one that looks again and again is run some ten thousand
// times.
#[test]
fn who_waits_sleeps(rt: HostRuntime) -> Result<(), Fail> {
    let Ok((store, mut passes)) = LockedStore::open(rt.alloc(), &[0], &[1, 1]) else {
        panic!(rt; "the store was not opened");
    };
    let (Some(second), Some(mut first)) = (passes.pop(), passes.pop()) else {
        panic!(rt; "there are two passes");
    };
    let waits = Watched::new(LocOp::Check(Loc(0), Rel::Eq, 1), 0);
    let (rt, shared, watched) = (&rt, &store, &waits);
    thread::join(
        rt,
        move || {
            shared.commit_waiting(rt, &mut first, watched);
        },
        move || set_late(rt, shared, second, watched),
    );
    assert!(rt; waits.runs() >= 2);
    assert!(rt; waits.runs() < 100);
    Ok(())
}
