//! A handle that did nothing while eras passed.

ghost use Rattle.std.specs.Prelude.{◌≡◌};
ghost use Rattle.kc_lasting.specs.Told.{standing_of};

use crate::acts::{add, read};
use crate::asserts::equal;
use kc_lasting::{Attempt, LastingCaller, open_at};
use kc_loc::LocOp;
use kc_model::{Footprint, Loc, Reply};
use kc_store::{Fate, Viewed};
use kc_xt::{Transact, Trial, Went};
use std::alloc::Global;
use std::process::Abort;
use std::sync::Wait;

// Two handles of one store, which has an era in each four commits.
fn two(rt: &(impl Abort + AllocGlobal)) -> (LastingCaller, LastingCaller)
    ensures { (standing_of result.0).roll ≡ (standing_of result.1).roll }
{
    let Ok(mut callers) = open_at(rt.alloc(), &[0, 0], &[0, 0], 2, 0, 3, 3) else {
        return None.expect(rt, "not opened");
    };
    let Some(late) = callers.pop() else {
        return None.expect(rt, "none");
    };
    let Some(busy) = callers.pop() else {
        return None.expect(rt, "not two");
    };
    (late, busy)
}

// The second has made a hundred adds since the first made one.
fn a_late_one<R: Wait + Abort + AllocGlobal>(rt: &R) -> (LastingCaller, LastingCaller)
    ensures { (standing_of result.0).roll ≡ (standing_of result.1).roll }
{
    let (mut late, mut busy) = two(rt);
    equal(rt, add(rt, &mut late, 0), Some(0));
    for before in 1..=100u32 {
        equal(rt, add(rt, &mut busy, 0), Some(before));
    }
    equal(rt, (late.era(), busy.era()), (0, 25));
    (late, busy)
}

#[test]
fn a_late_commit_is_made_in_the_last_era(rt: HostRuntime) {
    let (mut late, mut busy) = a_late_one(&rt);
    equal(&rt, add(&rt, &mut late, 0), Some(101));
    equal(&rt, late.era(), 25);
    equal(&rt, read(&rt, &mut busy, 0), Some(102));
}

#[test]
fn a_late_read_sees_the_last_era(rt: HostRuntime) {
    let (mut late, _busy) = a_late_one(&rt);
    equal(&rt, read(&rt, &mut late, 0), Some(101));
    equal(&rt, late.era(), 25);
}

// What a view answers.
fn viewed<R: Wait>(rt: &R, caller: &mut LastingCaller) -> Option<Reply> {
    if caller.locations() == 0 {
        return None;
    }
    match caller.view_into(rt, &LocOp::Get(Loc(0)), &mut Footprint::new()) {
        Viewed::Done(reply) => Some(reply),
        _ => None,
    }
}

#[test]
fn a_late_view_sees_the_last_era(rt: HostRuntime) {
    let (mut late, _busy) = a_late_one(&rt);
    equal(&rt, viewed(&rt, &mut late), Some(Reply::Value(101)));
    equal(&rt, late.era(), 25);
}

// Whether one try of an add was done, and was not cut away.
fn tried<R: Wait>(rt: &R, caller: &mut LastingCaller) -> Option<bool> {
    if caller.locations() == 0 {
        return None;
    }
    let mut trial = Trial::new();
    let add = LocOp::FetchAdd(Loc(0), 1);
    match caller.try_in_place(rt, &add, &mut trial, &mut Footprint::new()) {
        Attempt::Came(Fate::Entered { .. }) => Some(matches!(trial.went, Went::Done)),
        Attempt::Came(_) => None,
        Attempt::Renewed => Some(false),
    }
}

#[test]
fn a_late_try_is_cut_away_and_the_next_one_stands(rt: HostRuntime) {
    let (mut late, mut busy) = a_late_one(&rt);
    equal(&rt, tried(&rt, &mut late), Some(false));
    equal(&rt, read(&rt, &mut busy, 0), Some(101));
    equal(&rt, tried(&rt, &mut late), Some(true));
    equal(&rt, read(&rt, &mut busy, 0), Some(102));
}

#[test]
fn a_late_handle_is_taken_in_and_goes_on(rt: HostRuntime) {
    let (mut late, mut busy) = a_late_one(&rt);
    equal(&rt, busy.take_in(&rt, &mut late), true);
    equal(&rt, read(&rt, &mut busy, 0), Some(101));
    equal(&rt, add(&rt, &mut late, 0), Some(101));
    equal(&rt, late.era(), 25);
}

#[test]
fn all_handles_come_back(rt: HostRuntime) {
    let (late, mut busy) = a_late_one(&rt);
    let mut others = [late];
    equal(&rt, busy.finish(&rt, &mut others), true);
    equal(&rt, read(&rt, &mut busy, 0), Some(101));
}
