//! Lists of nodes.

ghost use Rattle.std.specs.Prelude.{◌≡◌};

use crate::asserts::{comes, is, open, reads, tells};
use kc_dllist::{Dllist, DllistAct, DllistOp};
use kc_model::{Loc, MOST, Reply};
use kc_xt::{PlainPeek, Room, Xt};
use std::test::Fail;

fn on(list: Dllist, act: DllistAct) -> DllistOp
    ensures list { result.list ≡ list }
    ensures act { result.act ≡ act }
{
    DllistOp { list, act }
}

#[test]
fn a_list_of_one_node_is_full_with_it(rt: HostRuntime) -> Result<(), Fail> {
    let store = open(rt.alloc(), &[9, 0, 0, 1, 0, 0, 0])?;
    let mut room = Room::new();
    let mut xt = Xt::new(PlainPeek::new(&store), &mut room, MOST as u32);
    let l = Dllist::layout(Loc(1), 1);
    is(&rt, l.cells(), 6);
    is(&rt, l.opening(2), 1);
    is(&rt, l.opening(5), 0);
    tells(&rt, &mut xt, &on(l, DllistAct::Last), Ok(Reply::Empty));
    tells(
        &rt,
        &mut xt,
        &on(l, DllistAct::PushFront(7)),
        Ok(Reply::Value(1)),
    );
    tells(
        &rt,
        &mut xt,
        &on(l, DllistAct::PushFront(8)),
        Ok(Reply::Full),
    );
    tells(&rt, &mut xt, &on(l, DllistAct::Last), Ok(Reply::Value(7)));
    tells(
        &rt,
        &mut xt,
        &on(l, DllistAct::Remove(1)),
        Ok(Reply::Value(7)),
    );
    tells(&rt, &mut xt, &on(l, DllistAct::Last), Ok(Reply::Empty));
    tells(
        &rt,
        &mut xt,
        &on(l, DllistAct::PushFront(8)),
        Ok(Reply::Value(1)),
    );
    Ok(())
}

#[test]
fn the_last_of_three_nodes_moves_to_the_front(rt: HostRuntime) -> Result<(), Fail> {
    let store = open(rt.alloc(), &[0, 0, 1, 0, 0, 2, 0, 0, 3, 0, 0, 0])?;
    let mut room = Room::new();
    let mut xt = Xt::new(PlainPeek::new(&store), &mut room, MOST as u32);
    let l = Dllist::layout(Loc(0), 3);
    tells(
        &rt,
        &mut xt,
        &on(l, DllistAct::PushFront(10)),
        Ok(Reply::Value(1)),
    );
    tells(
        &rt,
        &mut xt,
        &on(l, DllistAct::PushFront(20)),
        Ok(Reply::Value(2)),
    );
    tells(
        &rt,
        &mut xt,
        &on(l, DllistAct::PushFront(30)),
        Ok(Reply::Value(3)),
    );
    tells(
        &rt,
        &mut xt,
        &on(l, DllistAct::MoveFront(1)),
        Ok(Reply::Unit),
    );
    tells(
        &rt,
        &mut xt,
        &on(l, DllistAct::MoveFront(1)),
        Ok(Reply::Unit),
    );
    tells(&rt, &mut xt, &on(l, DllistAct::Last), Ok(Reply::Value(20)));
    tells(
        &rt,
        &mut xt,
        &on(l, DllistAct::Remove(2)),
        Ok(Reply::Value(20)),
    );
    tells(&rt, &mut xt, &on(l, DllistAct::Last), Ok(Reply::Value(30)));
    tells(
        &rt,
        &mut xt,
        &on(l, DllistAct::Remove(1)),
        Ok(Reply::Value(10)),
    );
    tells(
        &rt,
        &mut xt,
        &on(l, DllistAct::Remove(3)),
        Ok(Reply::Value(30)),
    );
    tells(
        &rt,
        &mut xt,
        &on(l, DllistAct::PushFront(40)),
        Ok(Reply::Value(3)),
    );
    tells(
        &rt,
        &mut xt,
        &on(l, DllistAct::PushFront(50)),
        Ok(Reply::Value(1)),
    );
    Ok(())
}

#[test]
fn the_listed_nodes_come_in_order(rt: HostRuntime) -> Result<(), Fail> {
    let store = open(rt.alloc(), &[3, 1, 2, 10, 3, 0, 0, 0, 0, 30, 0, 1])?;
    let l = Dllist::layout(Loc(0), 3);
    let mut nodes = l.nodes(&store);
    comes(&rt, nodes.next(), Some((3, 30)));
    comes(&rt, nodes.next(), Some((1, 10)));
    comes(&rt, nodes.next(), None);
    Ok(())
}

#[test]
fn links_in_a_circle_end_at_the_capacity(rt: HostRuntime) -> Result<(), Fail> {
    let store = open(rt.alloc(), &[1, 1, 0, 10, 1, 1])?;
    let l = Dllist::layout(Loc(0), 1);
    let mut nodes = l.nodes(&store);
    comes(&rt, nodes.next(), Some((1, 10)));
    comes(&rt, nodes.next(), None);
    Ok(())
}

#[test]
fn links_past_the_nodes_count_as_none(rt: HostRuntime) -> Result<(), Fail> {
    let store = open(rt.alloc(), &[9, 9, 1, 5, 8, 7])?;
    let mut room = Room::new();
    let mut xt = Xt::new(PlainPeek::new(&store), &mut room, MOST as u32);
    let l = Dllist::layout(Loc(0), 1);
    tells(&rt, &mut xt, &on(l, DllistAct::Last), Ok(Reply::Empty));
    tells(
        &rt,
        &mut xt,
        &on(l, DllistAct::Remove(1)),
        Ok(Reply::Value(5)),
    );
    reads(&rt, xt.get(Loc(0)), Ok(0));
    reads(&rt, xt.get(Loc(1)), Ok(0));
    reads(&rt, xt.get(Loc(5)), Ok(1));
    Ok(())
}
