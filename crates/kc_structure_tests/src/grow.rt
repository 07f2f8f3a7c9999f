//! Tables that grow.

use crate::asserts::{is, open, reads, tells};
use kc_grow::{Grow, GrowAct, GrowOp};
use kc_model::{Loc, MOST, Reply};
use kc_xt::{PlainPeek, Room, Xt};
use std::test::Fail;

#[test]
fn a_table_that_grows_is_a_finite_map_with_room_for_some_keys(rt: HostRuntime) -> Result<(), Fail> {
    let store = open(
        rt.alloc(),
        &[0, 1, 1, 0, 0, 0, 0, 0, 0, 2, 0, 0, 3, 0, 0, 4, 0, 0, 0],
    )?;
    let grow = Grow::layout(Loc(0), 4);
    is(&rt, grow.cells(), 19);
    for index in 0..19 {
        assert_eq!(rt; Some(grow.opening(index)), store.get(Loc(index)));
    }
    let mut room = Room::new();
    let mut xt = Xt::new(PlainPeek::new(&store), &mut room, MOST as u32);
    let op = |act: GrowAct| GrowOp { grow, act };
    tells(&rt, &mut xt, &op(GrowAct::Put(1, 10)), Ok(Reply::Unit));
    tells(&rt, &mut xt, &op(GrowAct::Put(2, 20)), Ok(Reply::Unit));
    tells(&rt, &mut xt, &op(GrowAct::Put(3, 30)), Ok(Reply::Unit));
    reads(&rt, xt.get(Loc(2)), Ok(3));
    reads(&rt, xt.get(Loc(3)), Ok(0));
    reads(&rt, xt.get(Loc(4)), Ok(3));
    reads(&rt, xt.get(Loc(5)), Ok(2));
    reads(&rt, xt.get(Loc(6)), Ok(0));
    tells(&rt, &mut xt, &op(GrowAct::Find(2)), Ok(Reply::Value(20)));
    tells(&rt, &mut xt, &op(GrowAct::Put(4, 40)), Ok(Reply::Unit));
    tells(&rt, &mut xt, &op(GrowAct::Put(5, 50)), Ok(Reply::Full));
    tells(&rt, &mut xt, &op(GrowAct::Del(1)), Ok(Reply::Value(10)));
    tells(&rt, &mut xt, &op(GrowAct::Len), Ok(Reply::Value(3)));
    Ok(())
}
