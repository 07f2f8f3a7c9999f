//! More threads than callers, which all add to one location.

ghost use Rattle.std.specs.Prelude.{◌≡◌, ◌<◌};

use kc_callers::{Borrowed, Callers, Closed};
use kc_loc::LocOp;
use kc_model::{Footprint, Loc, Reply};
use kc_store::{Answered, Store};
use std::alloc::Global;
use std::sync::Wait;
use std::test::Fail;
use std::thread;
use std::thread::Threads;

const CALLERS: u32 = 64;

const THREADS: usize = 200;

// By each thread.
const ADDS: u32 = 20;

// What adding to the location replies, with a caller that is borrowed for it.
fn add<R: Wait>(rt: &R, callers: &Callers, from: usize, more: u32) -> Option<Reply>
    requires some { 0 < callers.now.store.callers }
    requires location { 0 < callers.now.store.locations }
{
    let mut one = Borrowed::waiting(rt, callers, from);
    let mut footprint = Footprint::new();
    let answered = one.commit_into(rt, &LocOp::FetchAdd(Loc(0), more), &mut footprint);
    one.give_back();
    match answered {
        Answered::Done(reply) => Some(reply),
        _ => None,
    }
}

// How many of a thread's adds were done.
fn adds<R: Wait>(rt: &R, callers: &Callers, from: usize) -> u32
    requires some { 0 < callers.now.store.callers }
    requires location { 0 < callers.now.store.locations }
{
    let mut done = 0u32;
    'adds: for _ in 0..ADDS {
        if add(rt, callers, from, 1).is_some() {
            done = done.saturating_add(1);
        }
    }
    done
}

// What the location holds once all threads have ended, each of whose adds was done.
fn sum_by_many<R: Threads + Wait + Sync>(rt: &R, alloc: Global, callers: &Callers) -> Option<u32>
    requires some { 0 < callers.now.store.callers }
    requires location { 0 < callers.now.store.locations }
{
    let done = thread::map_indices(
        rt,
        alloc,
        THREADS,
        &|i: usize|
            requires some { 0 < callers.now.store.callers }
            requires location { 0 < callers.now.store.locations }
        { adds(rt, callers, i) },
    )
    .ok()?;
    for each in done.iter() {
        if *each != ADDS {
            return None;
        }
    }
    match add(rt, callers, 0, 0) {
        Some(Reply::Value(sum)) => Some(sum),
        _ => None,
    }
}

// How many callers came back, with which the store ends.
fn ended(callers: Callers, alloc: Global) -> Option<usize> {
    match callers.close(alloc) {
        Closed::All { store, callers } => {
            let many = callers.len();
            store.finish(callers);
            Some(many)
        }
        Closed::NoMemory(_) | Closed::Missing(_) => None,
    }
}

// The sum, and how many callers came back.
fn run<R: Threads + Wait + Sync>(rt: &R, alloc: Global) -> Option<(u32, usize)> {
    let (store, given) = Store::open(alloc, &[0], CALLERS).ok()?;
    let callers = Callers::open(alloc, store, given).ok()?;
    let sum = sum_by_many(rt, alloc, &callers)?;
    Some((sum, ended(callers, alloc)?))
}

#[test]
fn two_hundred_threads_add_with_sixty_four_callers(rt: HostRuntime) -> Result<(), Fail> {
    assert_eq!(rt;
        run(&rt, rt.alloc()),
        Some((THREADS as u32 * ADDS, CALLERS as usize))
    );
    Ok(())
}

fn give_some(one: Option<Borrowed<'_>>) {
    if let Some(one) = one {
        one.give_back();
    }
}

// Which of three in a row find a caller, that each has until the last has looked.
fn found_by_three(callers: &Callers) -> (bool, bool, bool) {
    let first = Borrowed::of(callers, 1);
    let second = Borrowed::of(callers, 1);
    let third = Borrowed::of(callers, 1);
    let found = (first.is_some(), second.is_some(), third.is_some());
    give_some(first);
    give_some(second);
    give_some(third);
    found
}

fn of_two(alloc: Global) -> Option<[(bool, bool, bool); 2]> {
    let (store, given) = Store::open(alloc, &[0], 2).ok()?;
    let callers = Callers::open(alloc, store, given).ok()?;
    Some([found_by_three(&callers), found_by_three(&callers)])
}

#[test]
fn a_caller_is_lent_to_one_at_a_time(rt: HostRuntime) -> Result<(), Fail> {
    assert_eq!(rt; of_two(rt.alloc()), Some([(true, true, false); 2]));
    Ok(())
}
