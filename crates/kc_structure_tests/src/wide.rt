//! Numbers of 64 bits.

ghost use Rattle.std.specs.Prelude.{◌≡◌, ◌≤◌, length};
ghost use Rattle.kc_cells.specs.Wide.{wide_end};

use crate::asserts::{holds, is, open, reads, tells};
use kc_cells::{Wide, WideAct, WideOp, number_in};
use kc_lay::Layout;
use kc_model::{Loc, MOST, Reply};
use kc_xt::{PlainPeek, Room, Transact, Xt};
use std::process::Abort;
use std::test::Fail;

// Asserts the number that an operation replies.
fn says<'a>(rt: &impl Abort, xt: &mut Xt<PlainPeek<'a>>, operation: &WideOp, want: u64)
    requires within { wide_end operation.now ≤ length xt.old.peek }
    ensures size { length xt.new.peek ≡ length xt.old.peek }
{
    let got = match operation.run(xt) {
        Ok(reply) => number_in(&reply),
        Err(_) => None,
    };
    assert_eq!(rt; got, Some(want));
}

#[test]
fn an_addition_carries_and_wraps(rt: HostRuntime) -> Result<(), Fail> {
    let store = open(rt.alloc(), &[9, u32::MAX, 0, 9])?;
    let mut room = Room::new();
    let mut xt = Xt::new(PlainPeek::new(&store), &mut room, MOST as u32);
    let wide = Wide::layout(Loc(1));
    let op = |act: WideAct| WideOp { wide, act };
    is(&rt, wide.cells(), 2);
    is(&rt, wide.opening(1), 0);
    says(&rt, &mut xt, &op(WideAct::Add(1)), 4_294_967_295);
    reads(&rt, xt.get(Loc(1)), Ok(0));
    reads(&rt, xt.get(Loc(2)), Ok(1));
    says(&rt, &mut xt, &op(WideAct::Get), 4_294_967_296);
    tells(
        &rt,
        &mut xt,
        &op(WideAct::Put(18_446_744_073_709_551_615)),
        Ok(Reply::Unit),
    );
    reads(&rt, xt.get(Loc(2)), Ok(u32::MAX));
    says(
        &rt,
        &mut xt,
        &op(WideAct::Add(3)),
        18_446_744_073_709_551_615,
    );
    says(&rt, &mut xt, &op(WideAct::Get), 2);
    reads(&rt, xt.get(Loc(0)), Ok(9));
    reads(&rt, xt.get(Loc(3)), Ok(9));
    Ok(())
}

#[test]
fn a_number_is_set_where_both_words_are_as_expected(rt: HostRuntime) -> Result<(), Fail> {
    let store = open(rt.alloc(), &[5, 7])?;
    let mut room = Room::new();
    let mut xt = Xt::new(PlainPeek::new(&store), &mut room, MOST as u32);
    let wide = Wide::layout(Loc(0));
    let op = |act: WideAct| WideOp { wide, act };
    tells(
        &rt,
        &mut xt,
        &op(WideAct::Cas(5, 1)),
        Ok(Reply::Bool(false)),
    );
    tells(
        &rt,
        &mut xt,
        &op(WideAct::Cas(30_064_771_072, 1)),
        Ok(Reply::Bool(false)),
    );
    reads(&rt, xt.get(Loc(0)), Ok(5));
    reads(&rt, xt.get(Loc(1)), Ok(7));
    tells(
        &rt,
        &mut xt,
        &op(WideAct::Cas(30_064_771_077, 8_589_934_596)),
        Ok(Reply::Bool(true)),
    );
    reads(&rt, xt.get(Loc(0)), Ok(4));
    reads(&rt, xt.get(Loc(1)), Ok(2));
    Ok(())
}

#[test]
fn a_number_is_laid_as_0(rt: HostRuntime) -> Result<(), Fail> {
    let mut layout = Layout::new(rt.alloc());
    let flag = layout.loc(1)?;
    let wide = layout.wide()?;
    let Ok(store) = layout.open(rt.alloc()) else {
        return Err(Fail::from("no memory"));
    };
    is(&rt, wide.base().0, 1);
    holds(&rt, store.get(flag), Some(1));
    assert_eq!(rt; wide.number(&store), 0);
    assert_eq!(rt; number_in(&Reply::Value(0)), None);
    Ok(())
}
