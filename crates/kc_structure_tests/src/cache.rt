//! Caches.

ghost use Rattle.std.specs.Prelude.{◌≡◌};

use crate::asserts::{comes, is, open, tells};
use kc_cache::{Cache, CacheAct, CacheOp};
use kc_model::{Loc, MOST, Reply};
use kc_xt::{PlainPeek, Room, Stop, Xt};
use std::test::Fail;

fn on(cache: Cache, act: CacheAct) -> CacheOp
    ensures { result.cache ≡ cache }
{
    CacheOp { cache, act }
}

#[test]
fn the_least_recent_pair_is_dropped(rt: HostRuntime) -> Result<(), Fail> {
    let c = Cache::layout(Loc(0), 2, 2);
    let store = open(
        rt.alloc(),
        &[
            2, 0, 1, 0, 0, 0, 0, 2, 0, 0, 0, 0, 0, 1, 0, 0, 2, 0, 0, 0, 0, 0,
        ],
    )?;
    let mut room = Room::new();
    let mut xt = Xt::new(PlainPeek::new(&store), &mut room, MOST as u32);
    tells(&rt, &mut xt, &on(c, CacheAct::CPut(1, 10)), Ok(Reply::Unit));
    tells(&rt, &mut xt, &on(c, CacheAct::CPut(2, 20)), Ok(Reply::Unit));
    tells(
        &rt,
        &mut xt,
        &on(c, CacheAct::CGet(1)),
        Ok(Reply::Value(10)),
    );
    tells(&rt, &mut xt, &on(c, CacheAct::CPut(3, 30)), Ok(Reply::Unit));
    tells(&rt, &mut xt, &on(c, CacheAct::CGet(2)), Ok(Reply::Empty));
    tells(&rt, &mut xt, &on(c, CacheAct::Len), Ok(Reply::Value(2)));
    Ok(())
}

#[test]
fn a_put_of_a_known_key_makes_it_the_most_recent_one(rt: HostRuntime) -> Result<(), Fail> {
    let c = Cache::layout(Loc(0), 2, 2);
    let store = open(
        rt.alloc(),
        &[
            2, 0, 1, 0, 0, 0, 0, 2, 0, 0, 0, 0, 0, 1, 0, 0, 2, 0, 0, 0, 0, 0,
        ],
    )?;
    let mut room = Room::new();
    let mut xt = Xt::new(PlainPeek::new(&store), &mut room, MOST as u32);
    tells(&rt, &mut xt, &on(c, CacheAct::CPut(1, 10)), Ok(Reply::Unit));
    tells(&rt, &mut xt, &on(c, CacheAct::CPut(2, 20)), Ok(Reply::Unit));
    tells(&rt, &mut xt, &on(c, CacheAct::CPut(1, 11)), Ok(Reply::Unit));
    tells(&rt, &mut xt, &on(c, CacheAct::CPut(3, 30)), Ok(Reply::Unit));
    tells(&rt, &mut xt, &on(c, CacheAct::CGet(2)), Ok(Reply::Empty));
    tells(
        &rt,
        &mut xt,
        &on(c, CacheAct::CGet(1)),
        Ok(Reply::Value(11)),
    );
    Ok(())
}

#[test]
fn a_waiting_put_takes_a_place_that_is_free_again(rt: HostRuntime) -> Result<(), Fail> {
    let c = Cache::layout(Loc(0), 2, 2);
    let store = open(
        rt.alloc(),
        &[
            2, 0, 1, 0, 0, 0, 0, 2, 0, 0, 0, 0, 0, 1, 0, 0, 2, 0, 0, 0, 0, 0,
        ],
    )?;
    let mut room = Room::new();
    let mut xt = Xt::new(PlainPeek::new(&store), &mut room, MOST as u32);
    tells(
        &rt,
        &mut xt,
        &on(c, CacheAct::CPutWait(1, 10)),
        Ok(Reply::Unit),
    );
    tells(
        &rt,
        &mut xt,
        &on(c, CacheAct::CPutWait(2, 20)),
        Ok(Reply::Unit),
    );
    tells(
        &rt,
        &mut xt,
        &on(c, CacheAct::CPutWait(4, 40)),
        Err(Stop::Retry),
    );
    tells(
        &rt,
        &mut xt,
        &on(c, CacheAct::CGet(1)),
        Ok(Reply::Value(10)),
    );
    tells(&rt, &mut xt, &on(c, CacheAct::CPut(3, 30)), Ok(Reply::Unit));
    tells(
        &rt,
        &mut xt,
        &on(c, CacheAct::CDel(1)),
        Ok(Reply::Value(10)),
    );
    tells(
        &rt,
        &mut xt,
        &on(c, CacheAct::CPutWait(4, 40)),
        Ok(Reply::Unit),
    );
    tells(
        &rt,
        &mut xt,
        &on(c, CacheAct::CGet(3)),
        Ok(Reply::Value(30)),
    );
    tells(&rt, &mut xt, &on(c, CacheAct::CDel(7)), Ok(Reply::Empty));
    tells(&rt, &mut xt, &on(c, CacheAct::Len), Ok(Reply::Value(2)));
    Ok(())
}

#[test]
fn pairs_come_from_the_most_recent_one_on(rt: HostRuntime) -> Result<(), Fail> {
    let c = Cache::layout(Loc(0), 2, 2);
    is(&rt, c.cells(), 22);
    is(&rt, c.opening(0), 2);
    is(&rt, c.opening(2), 1);
    is(&rt, c.opening(13), 1);
    is(&rt, c.opening(21), 0);
    let store = open(
        rt.alloc(),
        &[
            0, 2, 0, 2, 1, 5, 1, 0, 4, 2, 0, 1, 2, 0, 5, 0, 2, 4, 1, 0, 50, 40,
        ],
    )?;
    let mut pairs = c.pairs(&store);
    comes(&rt, pairs.next(), Some((5, 50)));
    comes(&rt, pairs.next(), Some((4, 40)));
    comes(&rt, pairs.next(), None);
    Ok(())
}

// The table has key 5 at node 9, which is none, and key 4 at node 1; the list and its free nodes are empty.
#[test]
fn a_cache_out_of_order_answers_and_ends(rt: HostRuntime) -> Result<(), Fail> {
    let c = Cache::layout(Loc(0), 1, 2);
    let store = open(
        rt.alloc(),
        &[
            0, 2, 0, 2, 4, 1, 0, 5, 9, 1, 0, 0, 0, 0, 0, 0, 0, 0, 0, 8, 7,
        ],
    )?;
    let mut room = Room::new();
    let mut xt = Xt::new(PlainPeek::new(&store), &mut room, MOST as u32);
    tells(&rt, &mut xt, &on(c, CacheAct::CGet(5)), Ok(Reply::Empty));
    tells(&rt, &mut xt, &on(c, CacheAct::CPut(5, 1)), Ok(Reply::Full));
    tells(&rt, &mut xt, &on(c, CacheAct::CPut(6, 1)), Ok(Reply::Full));
    tells(&rt, &mut xt, &on(c, CacheAct::CGet(4)), Ok(Reply::Value(8)));
    tells(&rt, &mut xt, &on(c, CacheAct::CDel(5)), Ok(Reply::Empty));
    Ok(())
}
