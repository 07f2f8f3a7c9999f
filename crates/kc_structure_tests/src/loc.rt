//! Locations.

use crate::asserts::{open, tells};
use kc_loc::{Fun, LocOp, Rel};
use kc_model::{Loc, MOST, Reply};
use kc_xt::{PlainPeek, Room, Stop, Xt};
use std::test::Fail;

#[test]
fn operations_answer(rt: HostRuntime) -> Result<(), Fail> {
    let store = open(rt.alloc(), &[1, 2, 5, 0])?;
    let mut room = Room::new();
    let mut xt = Xt::new(PlainPeek::new(&store), &mut room, MOST as u32);
    let (x, y) = (Loc(0), Loc(1));
    tells(&rt, &mut xt, &LocOp::Swap(x, y), Ok(Reply::Unit));
    tells(&rt, &mut xt, &LocOp::Get(x), Ok(Reply::Value(2)));
    tells(&rt, &mut xt, &LocOp::Cas(y, 1, 9), Ok(Reply::Bool(true)));
    tells(&rt, &mut xt, &LocOp::Cas(y, 1, 7), Ok(Reply::Bool(false)));
    tells(
        &rt,
        &mut xt,
        &LocOp::Update(x, Fun::Max(4)),
        Ok(Reply::Value(2)),
    );
    tells(
        &rt,
        &mut xt,
        &LocOp::Modify(y, Fun::Xor(1)),
        Ok(Reply::Unit),
    );
    tells(&rt, &mut xt, &LocOp::Exchange(x, 6), Ok(Reply::Value(4)));
    tells(&rt, &mut xt, &LocOp::FetchAdd(y, 3), Ok(Reply::Value(8)));
    tells(&rt, &mut xt, &LocOp::Get(y), Ok(Reply::Value(11)));
    Ok(())
}

#[test]
fn a_value_wraps_and_a_check_waits(rt: HostRuntime) -> Result<(), Fail> {
    let store = open(rt.alloc(), &[0, 5])?;
    let mut room = Room::new();
    let mut xt = Xt::new(PlainPeek::new(&store), &mut room, MOST as u32);
    let (x, y) = (Loc(0), Loc(1));
    tells(&rt, &mut xt, &LocOp::Decr(x), Ok(Reply::Unit));
    tells(
        &rt,
        &mut xt,
        &LocOp::Get(x),
        Ok(Reply::Value(4_294_967_295)),
    );
    tells(&rt, &mut xt, &LocOp::Incr(x), Ok(Reply::Unit));
    tells(&rt, &mut xt, &LocOp::Check(x, Rel::Eq, 0), Ok(Reply::Unit));
    tells(&rt, &mut xt, &LocOp::Check(y, Rel::Gt, 5), Err(Stop::Retry));
    tells(&rt, &mut xt, &LocOp::Set(y, 6), Ok(Reply::Unit));
    tells(&rt, &mut xt, &LocOp::Check(y, Rel::Gt, 5), Ok(Reply::Unit));
    Ok(())
}
