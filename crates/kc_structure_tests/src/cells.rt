//! Mvars, promises and accumulators.

use crate::asserts::{holds, is, open, reads, tells};
use kc_cells::{AccAct, AccOp, Accumulator, Mvar, MvarAct, MvarOp, Promise, PromiseAct, PromiseOp};
use kc_model::{Loc, MOST, Reply};
use kc_xt::{PlainPeek, Room, Stop, Xt};
use std::test::Fail;

#[test]
fn a_put_waits_while_there_is_a_value_and_a_take_until_there_is_one(
    rt: HostRuntime,
) -> Result<(), Fail> {
    let store = open(rt.alloc(), &[5, 0, 9])?;
    let mut room = Room::new();
    let mut xt = Xt::new(PlainPeek::new(&store), &mut room, MOST as u32);
    let mvar = Mvar::layout(Loc(1));
    let op = |act: MvarAct| MvarOp { mvar, act };
    is(&rt, mvar.cells(), 2);
    is(&rt, mvar.opening(1), 0);
    holds(&rt, mvar.value(&store), None);
    tells(&rt, &mut xt, &op(MvarAct::Peek), Ok(Reply::Empty));
    tells(&rt, &mut xt, &op(MvarAct::Take), Err(Stop::Retry));
    tells(&rt, &mut xt, &op(MvarAct::Put(1)), Ok(Reply::Unit));
    tells(&rt, &mut xt, &op(MvarAct::Put(2)), Err(Stop::Retry));
    tells(&rt, &mut xt, &op(MvarAct::Peek), Ok(Reply::Value(1)));
    tells(&rt, &mut xt, &op(MvarAct::Take), Ok(Reply::Value(1)));
    tells(&rt, &mut xt, &op(MvarAct::Peek), Ok(Reply::Empty));
    tells(&rt, &mut xt, &op(MvarAct::Put(2)), Ok(Reply::Unit));
    Ok(())
}

#[test]
fn a_promise_keeps_its_first_value(rt: HostRuntime) -> Result<(), Fail> {
    let store = open(rt.alloc(), &[0, 0])?;
    let mut room = Room::new();
    let mut xt = Xt::new(PlainPeek::new(&store), &mut room, MOST as u32);
    let promise = Promise::layout(Loc(0));
    let op = |act: PromiseAct| PromiseOp { promise, act };
    is(&rt, promise.cells(), 2);
    is(&rt, promise.opening(0), 0);
    holds(&rt, promise.value(&store), None);
    tells(
        &rt,
        &mut xt,
        &op(PromiseAct::IsResolved),
        Ok(Reply::Bool(false)),
    );
    tells(&rt, &mut xt, &op(PromiseAct::Await), Err(Stop::Retry));
    tells(&rt, &mut xt, &op(PromiseAct::Resolve(4)), Ok(Reply::Unit));
    tells(
        &rt,
        &mut xt,
        &op(PromiseAct::Resolve(5)),
        Ok(Reply::Bool(false)),
    );
    tells(&rt, &mut xt, &op(PromiseAct::Await), Ok(Reply::Value(4)));
    tells(
        &rt,
        &mut xt,
        &op(PromiseAct::IsResolved),
        Ok(Reply::Bool(true)),
    );
    Ok(())
}

#[test]
fn a_flag_that_no_operation_leaves_says_that_there_is_a_value(rt: HostRuntime) -> Result<(), Fail> {
    let store = open(rt.alloc(), &[7, 3])?;
    let mut room = Room::new();
    let mut xt = Xt::new(PlainPeek::new(&store), &mut room, MOST as u32);
    let promise = Promise::layout(Loc(0));
    let mvar = Mvar::layout(Loc(0));
    let op = |act: MvarAct| MvarOp { mvar, act };
    let on = |act: PromiseAct| PromiseOp { promise, act };
    holds(&rt, promise.value(&store), Some(3));
    holds(&rt, mvar.value(&store), Some(3));
    tells(
        &rt,
        &mut xt,
        &on(PromiseAct::IsResolved),
        Ok(Reply::Bool(true)),
    );
    tells(
        &rt,
        &mut xt,
        &on(PromiseAct::Resolve(1)),
        Ok(Reply::Bool(false)),
    );
    tells(&rt, &mut xt, &op(MvarAct::Put(1)), Err(Stop::Retry));
    tells(&rt, &mut xt, &op(MvarAct::Peek), Ok(Reply::Value(3)));
    tells(&rt, &mut xt, &op(MvarAct::Take), Ok(Reply::Value(3)));
    tells(&rt, &mut xt, &op(MvarAct::Take), Err(Stop::Retry));
    Ok(())
}

#[test]
fn a_bump_goes_round_the_cells_and_a_total_wraps(rt: HostRuntime) -> Result<(), Fail> {
    let store = open(rt.alloc(), &[1, u32::MAX, 0, 4])?;
    let mut room = Room::new();
    let mut xt = Xt::new(PlainPeek::new(&store), &mut room, MOST as u32);
    let acc = Accumulator::layout(Loc(1), 3);
    let op = |act: AccAct| AccOp { acc, act };
    is(&rt, acc.cells(), 3);
    is(&rt, acc.opening(2), 0);
    is(&rt, acc.total(&store), 3);
    tells(&rt, &mut xt, &op(AccAct::Total), Ok(Reply::Value(3)));
    tells(&rt, &mut xt, &op(AccAct::Bump(5, 9)), Ok(Reply::Unit));
    tells(&rt, &mut xt, &op(AccAct::Bump(3, 2)), Ok(Reply::Unit));
    tells(&rt, &mut xt, &op(AccAct::Total), Ok(Reply::Value(14)));
    reads(&rt, xt.get(Loc(1)), Ok(1));
    reads(&rt, xt.get(Loc(3)), Ok(13));
    Ok(())
}

#[test]
fn two_totals_of_32_cells_fill_a_log(rt: HostRuntime) -> Result<(), Fail> {
    let store = open(rt.alloc(), &[0; 65])?;
    let mut room = Room::new();
    let mut xt = Xt::new(PlainPeek::new(&store), &mut room, 64);
    let a = Accumulator::layout(Loc(0), 32);
    let b = Accumulator::layout(Loc(32), 32);
    let on = |acc: Accumulator, act: AccAct| AccOp { acc, act };
    tells(&rt, &mut xt, &on(a, AccAct::Total), Ok(Reply::Value(0)));
    tells(&rt, &mut xt, &on(b, AccAct::Total), Ok(Reply::Value(0)));
    tells(&rt, &mut xt, &on(a, AccAct::Bump(0, 5)), Ok(Reply::Unit));
    tells(&rt, &mut xt, &on(a, AccAct::Total), Ok(Reply::Value(5)));
    reads(&rt, xt.get(Loc(64)), Err(Stop::TooLarge));
    Ok(())
}
