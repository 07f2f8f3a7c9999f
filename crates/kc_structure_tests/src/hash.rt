//! Tables of so many buckets.

use crate::asserts::{comes, is, open, tells};
use kc_hash::{Hash, HashAct, HashOp};
use kc_model::{Loc, MOST, Reply};
use kc_xt::{PlainPeek, Room, Xt};
use std::test::Fail;

#[test]
fn a_table_is_a_finite_map_with_room_for_some_keys(rt: HostRuntime) -> Result<(), Fail> {
    let store = open(rt.alloc(), &[0, 0, 1, 0, 0, 0, 2, 0, 0, 3, 0, 0, 0])?;
    let hash = Hash::layout(Loc(1), 1, 3);
    is(&rt, hash.cells(), 12);
    is(&rt, hash.opening(1), 1);
    is(&rt, hash.opening(5), 2);
    is(&rt, hash.opening(8), 3);
    is(&rt, hash.opening(11), 0);
    let mut room = Room::new();
    let mut xt = Xt::new(PlainPeek::new(&store), &mut room, MOST as u32);
    let op = |act: HashAct| HashOp { hash, act };
    tells(&rt, &mut xt, &op(HashAct::Put(1, 10)), Ok(Reply::Unit));
    tells(&rt, &mut xt, &op(HashAct::Put(2, 20)), Ok(Reply::Unit));
    tells(&rt, &mut xt, &op(HashAct::Put(3, 30)), Ok(Reply::Unit));
    tells(&rt, &mut xt, &op(HashAct::Del(2)), Ok(Reply::Value(20)));
    tells(&rt, &mut xt, &op(HashAct::Find(1)), Ok(Reply::Value(10)));
    tells(&rt, &mut xt, &op(HashAct::Find(2)), Ok(Reply::Empty));
    tells(&rt, &mut xt, &op(HashAct::Find(3)), Ok(Reply::Value(30)));
    tells(&rt, &mut xt, &op(HashAct::Put(9, 90)), Ok(Reply::Unit));
    tells(&rt, &mut xt, &op(HashAct::Put(8, 80)), Ok(Reply::Full));
    tells(&rt, &mut xt, &op(HashAct::Put(1, 11)), Ok(Reply::Unit));
    tells(&rt, &mut xt, &op(HashAct::Len), Ok(Reply::Value(3)));
    Ok(())
}

#[test]
fn a_walk_round_a_circle_of_links_ends(rt: HostRuntime) -> Result<(), Fail> {
    let store = open(rt.alloc(), &[0, 0, 0, 1, 5, 0, 1, 0, 0, 0])?;
    let hash = Hash::layout(Loc(1), 1, 2);
    let mut room = Room::new();
    let mut xt = Xt::new(PlainPeek::new(&store), &mut room, MOST as u32);
    let find = HashOp {
        hash,
        act: HashAct::Find(9),
    };
    tells(&rt, &mut xt, &find, Ok(Reply::Empty));
    let (_, footprint) = xt.into_parts();
    assert_eq!(rt; footprint.puts.len(), 0);
    assert_eq!(rt; footprint.reads.len(), 3);
    let touched = [Loc(3), Loc(4), Loc(6)];
    for (seen, loc) in footprint.reads.as_slice().iter().zip(&touched) {
        assert_eq!(rt; seen.loc, *loc);
    }
    comes(&rt, hash.pairs(&store).next(), Some((5, 0)));
    Ok(())
}

#[test]
fn pairs_come_in_rising_order_of_key_from_all_chains(rt: HostRuntime) -> Result<(), Fail> {
    let store = open(rt.alloc(), &[3, 0, 2, 3, 1, 11, 0, 4, 44, 0, 9, 90, 1])?;
    let hash = Hash::layout(Loc(0), 2, 3);
    let mut pairs = hash.pairs(&store);
    comes(&rt, pairs.next(), Some((1, 11)));
    comes(&rt, pairs.next(), Some((4, 44)));
    comes(&rt, pairs.next(), Some((9, 90)));
    comes(&rt, pairs.next(), None);
    Ok(())
}

#[test]
fn pairs_of_more_than_one_pass_come_in_rising_order_of_key(rt: HostRuntime) -> Result<(), Fail> {
    let mut cells = [0; 3 + 3 * 600];
    cells[2] = 1;
    for node in 0..600 {
        let key = 600 - node as u32;
        cells[3 + 3 * node] = key;
        cells[4 + 3 * node] = 2 * key;
        cells[5 + 3 * node] = node as u32 + 2;
    }
    let store = open(rt.alloc(), &cells)?;
    let mut pairs = Hash::layout(Loc(0), 1, 600).pairs(&store);
    for key in 1..601 {
        comes(&rt, pairs.next(), Some((key, 2 * key)));
    }
    comes(&rt, pairs.next(), None);
    Ok(())
}
