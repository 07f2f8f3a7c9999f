//! More tasks than callers, each of which waits for the one before it.

ghost use Rattle.std.specs.Prelude.{◌≡◌, ◌<◌, ◌≤◌};
ghost use Rattle.kc_loc.specs.Meaning.{LocIsFit, loc_end};

use futures::executor::block_on;
use kc_async::{Bells, ByTurns};
use kc_callers::{Callers, Closed};
use kc_loc::{LocOp, Rel};
use kc_model::Loc;
use kc_store::{Answered, Store};
use std::alloc::{AllocGlobal, Global};
use std::random::RandomSource;
use std::sync::Wait;
use std::test::Fail;
use std::thread;
use std::thread::Threads;

const TASKS: usize = 24;

const ROUNDS: u32 = 20;

// Whether a commit is done, as a task that has a caller only while it looks.
fn is_done<R: Wait + RandomSource + AllocGlobal>(
    rt: &R,
    bells: &Bells,
    callers: &Callers,
    number: usize,
    op: LocOp,
) -> bool
    requires fit { LocIsFit op }
    requires within { loc_end op ≤ callers.now.store.locations }
{
    let Ok(done) = block_on(rt, ByTurns::new(callers, bells, number, op)) else {
        return false;
    };
    matches!(done.into_answered().0, Answered::Done(_))
}

// How many rounds of the ring's task of this number are done.
fn rounds<R: Wait + RandomSource + AllocGlobal>(
    rt: &R,
    bells: &Bells,
    callers: &Callers,
    number: usize,
) -> u32
    requires location { 0 < callers.now.store.locations }
    requires number { number < 24 }
{
    let mut done = 0u32;
    'rounds: for round in 0..ROUNDS {
        let wanted = round * TASKS as u32 + number as u32;
        if is_done(
            rt,
            bells,
            callers,
            number,
            LocOp::Check(Loc(0), Rel::Eq, wanted),
        ) && is_done(rt, bells, callers, number, LocOp::Set(Loc(0), wanted + 1))
        {
            done = done.saturating_add(1);
        }
    }
    done
}

// Whether each task has gone all its rounds.
fn all_round<R: Wait + RandomSource + AllocGlobal + Threads + Sync>(
    rt: &R,
    alloc: Global,
    bells: &Bells,
    callers: &Callers,
) -> Option<bool>
    requires location { 0 < callers.now.store.locations }
{
    let done = thread::map_indices(
        rt,
        alloc,
        TASKS,
        &|i: usize|
            requires location { 0 < callers.now.store.locations }
            requires number { i < 24 }
        { rounds(rt, bells, callers, i) },
    )
    .ok()?;
    Some(done.iter().all(|each| *each == ROUNDS))
}

// Whether all went round, and whether both callers are back.
fn run<R: Wait + RandomSource + AllocGlobal + Threads + Sync>(
    rt: &R,
    alloc: Global,
) -> Option<(bool, bool)> {
    let (store, given) = Store::open(alloc, &[0], 2).ok()?;
    let callers = Callers::open(alloc, store, given).ok()?;
    let bells = Bells::new(alloc, 8).ok()?;
    let round = all_round(rt, alloc, &bells, &callers)?;
    Some((round, matches!(callers.close(alloc), Closed::All { .. })))
}

#[test]
fn more_tasks_wait_than_there_are_callers(rt: HostRuntime) -> Result<(), Fail> {
    assert_eq!(rt; run(&rt, rt.alloc()), Some((true, true)));
    Ok(())
}
