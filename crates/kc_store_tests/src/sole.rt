//! Transactions by the only caller of a store.

ghost use Rattle.std.specs.Prelude.{◌≡◌, ◌≤◌};

use crate::asserts::equal;
use crate::trying::{first_read, open_alone, open_worn};
use kc_loc::{LocOp, Rel};
use kc_model::{Footprint, LAST_VERSION, Loc, Reply};
use kc_store::{Answered, Caller, LAST_GENERATION, Sole, Store, Try, Wear};
use kc_xt::Transact;
use std::test::Fail;

const GET: LocOp = LocOp::Get(Loc(0));

const SET: LocOp = LocOp::Set(Loc(0), 1);

// What the only caller is told.
fn told<T: Transact>(
    store: &mut Store,
    caller: &mut Caller,
    transaction: &T,
    footprint: &mut Footprint,
) -> Answered
    requires alone { store.old.callers ≡ 1 }
    requires caller { caller.old.of ≡ store.old }
    requires fit { T.is_fit transaction.now }
    requires within { T.end transaction.now ≤ store.old.locations }
    ensures store { store.new ≡ store.old }
    ensures of { caller.new.of ≡ caller.old.of }
{
    store.sole_into(caller, transaction, footprint)
}

// The worn location that a try tells of.
fn worn_in_try(told: &Try) -> Option<Loc> {
    match told {
        Try::Worn(Wear::Location { loc, footprint: _ }) => Some(*loc),
        _ => None,
    }
}

// The worn location that a transaction by the only caller tells of.
fn worn_alone(told: &Sole) -> Option<Loc> {
    match told {
        Sole::Worn(Wear::Location { loc, footprint: _ }) => Some(*loc),
        _ => None,
    }
}

#[test]
fn a_worn_location_is_told_so_and_can_be_read(rt: HostRuntime) -> Result<(), Fail> {
    let opened = Store::open_at(rt.alloc(), &[3], &[LAST_VERSION], 1, 0);
    let (mut store, mut callers) = opened.expect(&rt, "not opened");
    let mut a = callers.pop().expect(&rt, "no caller");
    let tried = store.try_commit(&mut a, &SET);
    equal(&rt, worn_in_try(&tried), Some(Loc(0)));
    let alone = store.sole(&mut a, &SET);
    equal(&rt, worn_alone(&alone), Some(Loc(0)));
    let Sole::Done { reply, footprint } = store.sole(&mut a, &GET) else {
        return Err(Fail::from("another answer"));
    };
    equal(&rt, reply, Reply::Value(3));
    equal(
        &rt,
        (first_read(&footprint), footprint.puts.len()),
        (Some((LAST_VERSION, 3)), 0),
    );
    Ok(())
}

#[test]
fn a_sole_transaction_puts_or_leaves_all(rt: HostRuntime) {
    let (mut store, mut a) = open_alone(&rt, &[5, 6]);
    let mut footprint = Footprint::new();
    let swapped = told(
        &mut store,
        &mut a,
        &LocOp::Swap(Loc(0), Loc(1)),
        &mut footprint,
    );
    equal(&rt, swapped, Answered::Done(Reply::Unit));
    equal(&rt, (footprint.reads.len(), footprint.puts.len()), (2, 2));
    let until_five = LocOp::Check(Loc(0), Rel::Eq, 5);
    let waits = told(&mut store, &mut a, &until_five, &mut footprint);
    equal(&rt, waits, Answered::Later);
    let read = told(&mut store, &mut a, &GET, &mut footprint);
    equal(&rt, read, Answered::Done(Reply::Value(6)));
    equal(&rt, first_read(&footprint), Some((1, 6)));
}

#[test]
fn a_worn_pool_is_told_so_where_it_would_be_done(rt: HostRuntime) -> Result<(), Fail> {
    let (mut store, mut a) = open_worn(&rt);
    let mut footprint = Footprint::new();
    let put = told(&mut store, &mut a, &SET, &mut footprint);
    equal(&rt, put, Answered::WornPool);
    let read = told(&mut store, &mut a, &GET, &mut footprint);
    equal(&rt, read, Answered::WornPool);
    let until_one = LocOp::Check(Loc(0), Rel::Eq, 1);
    equal(
        &rt,
        told(&mut store, &mut a, &until_one, &mut footprint),
        Answered::Later,
    );
    let Try::Worn(Wear::Pool) = store.try_commit(&mut a, &SET) else {
        return Err(Fail::from("a put by one who was told that the pool is worn"));
    };
    Ok(())
}
