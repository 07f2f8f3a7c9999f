//! Stacks.

use crate::asserts::{is, open, tells};
use kc_model::{Loc, MOST, Reply};
use kc_stack::{Stack, StackAct, StackOp};
use kc_xt::{PlainPeek, Room, Stop, Xt};
use std::test::Fail;

#[test]
fn items_leave_in_the_order_last_in_first_out(rt: HostRuntime) -> Result<(), Fail> {
    let store = open(rt.alloc(), &[1, 0, 0, 0])?;
    let mut room = Room::new();
    let mut xt = Xt::new(PlainPeek::new(&store), &mut room, MOST as u32);
    let stack = Stack::layout(Loc(1), 2);
    let op = |act: StackAct| StackOp { stack, act };
    is(&rt, stack.cells(), 3);
    is(&rt, stack.opening(2), 0);
    tells(&rt, &mut xt, &op(StackAct::PopWait), Err(Stop::Retry));
    tells(&rt, &mut xt, &op(StackAct::Top), Ok(Reply::Empty));
    tells(&rt, &mut xt, &op(StackAct::Push(4)), Ok(Reply::Unit));
    tells(&rt, &mut xt, &op(StackAct::Push(5)), Ok(Reply::Unit));
    tells(&rt, &mut xt, &op(StackAct::Push(6)), Ok(Reply::Full));
    tells(&rt, &mut xt, &op(StackAct::Len), Ok(Reply::Value(2)));
    tells(&rt, &mut xt, &op(StackAct::Top), Ok(Reply::Value(5)));
    tells(&rt, &mut xt, &op(StackAct::Pop), Ok(Reply::Value(5)));
    tells(&rt, &mut xt, &op(StackAct::PopWait), Ok(Reply::Value(4)));
    tells(&rt, &mut xt, &op(StackAct::Pop), Ok(Reply::Empty));
    Ok(())
}

#[test]
fn a_count_above_the_capacity_counts_as_the_capacity(rt: HostRuntime) -> Result<(), Fail> {
    let store = open(rt.alloc(), &[9, 7, 8, 3])?;
    let mut room = Room::new();
    let mut xt = Xt::new(PlainPeek::new(&store), &mut room, MOST as u32);
    let stack = Stack::layout(Loc(0), 2);
    let op = |act: StackAct| StackOp { stack, act };
    let count = stack.count(&store);
    is(&rt, count, 2);
    if 1 < count {
        is(&rt, stack.item(&store, 0), 8);
        is(&rt, stack.item(&store, 1), 7);
    }
    tells(&rt, &mut xt, &op(StackAct::Len), Ok(Reply::Value(2)));
    tells(&rt, &mut xt, &op(StackAct::Push(1)), Ok(Reply::Full));
    tells(&rt, &mut xt, &op(StackAct::Pop), Ok(Reply::Value(8)));
    tells(&rt, &mut xt, &op(StackAct::Len), Ok(Reply::Value(1)));
    tells(&rt, &mut xt, &op(StackAct::Top), Ok(Reply::Value(7)));
    Ok(())
}
