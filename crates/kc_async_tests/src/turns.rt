//! Two tasks that wait for each other.

ghost use Rattle.std.specs.Prelude.{◌≡◌, ◌<◌, ◌≤◌};
ghost use Rattle.kc_loc.specs.Meaning.{LocIsFit, loc_end};

use futures::executor::block_on;
use kc_async::{Bells, Committing};
use kc_callers::{Borrowed, Callers};
use kc_loc::{LocOp, Rel};
use kc_model::Loc;
use kc_store::{Answered, Store};
use std::alloc::{AllocGlobal, Global};
use std::random::RandomSource;
use std::sync::Wait;
use std::test::Fail;
use std::thread;
use std::thread::Threads;

const TURNS: u32 = 200;

// Whether a commit is done, as a task of its own.
fn is_done<R: Wait + RandomSource + AllocGlobal>(
    rt: &R,
    bells: &Bells,
    callers: &Callers,
    op: LocOp,
) -> bool
    requires some { 0 < callers.now.store.callers }
    requires fit { LocIsFit op }
    requires within { loc_end op ≤ callers.now.store.locations }
{
    let one = Borrowed::waiting(rt, callers, 0);
    let Ok(done) = block_on(rt, Committing::new(bells, 0, one, op)) else {
        return false;
    };
    matches!(done.into_answered().0, Answered::Done(_))
}

// How many turns of a task are done, which waits for its number, and for each that is two more.
fn turns<R: Wait + RandomSource + AllocGlobal>(
    rt: &R,
    bells: &Bells,
    callers: &Callers,
    first: bool,
) -> u32
    requires some { 0 < callers.now.store.callers }
    requires location { 0 < callers.now.store.locations }
{
    let mut done = 0u32;
    'turns: for turn in 0..TURNS {
        let wanted = 2 * turn + if first { 0 } else { 1 };
        if is_done(rt, bells, callers, LocOp::Check(Loc(0), Rel::Eq, wanted))
            && is_done(rt, bells, callers, LocOp::Set(Loc(0), wanted + 1))
        {
            done = done.saturating_add(1);
        }
    }
    done
}

fn run<R: Wait + RandomSource + AllocGlobal + Threads + Sync>(
    rt: &R,
    alloc: Global,
) -> Option<(u32, u32)> {
    let (store, given) = Store::open(alloc, &[0], 2).ok()?;
    let callers = Callers::open(alloc, store, given).ok()?;
    let bells = Bells::new(alloc, 1).ok()?;
    Some(thread::join(
        rt,
        || turns(rt, &bells, &callers, true),
        || turns(rt, &bells, &callers, false),
    ))
}

#[test]
fn two_tasks_wait_for_each_other(rt: HostRuntime) -> Result<(), Fail> {
    assert_eq!(rt; run(&rt, rt.alloc()), Some((TURNS, TURNS)));
    Ok(())
}
