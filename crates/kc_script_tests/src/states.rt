//! The lines that show what objects hold.

ghost use Rattle.std.specs.Prelude.{◌≡◌, ◌≤◌, ◌+◌, ◌∷◌, [], ℕ, List, length, IfOk};
ghost use Rattle.kc_script_bundle.specs.Script.{names_of, base, cells, ObjectIsWithin};

use crate::asserts::{equal, holds};
use indexmap::IndexMap;
use kc_cache::Cache;
use kc_cells::{Accumulator, Mvar, Promise};
use kc_grow::Grow;
use kc_hash::Hash;
use kc_model::{FrailSink, Loc, MOST, PlainStore, Reply};
use kc_queue::Queue;
use kc_script_bundle::{
    Bundle, Cancel, Command, Object, Op, cells, cleared, is_flagged, live_threads, opening,
    write_state,
};
use kc_stack::{Stack, StackAct, StackOp};
use kc_term::Term;
use kc_xt::{PlainPeek, Room, Stop, Transact, Xt};
use std::alloc::Global;
use std::process::Abort;
use std::test::Fail;

// A bundle of one object, with no threads.
fn bundle_of(alloc: Global, object: Object) -> Result<Bundle, Fail>
    ensures object { IfOk result (λ bundle. (name : List ℕ) × (names_of bundle.objects ≡ (name, object) ∷ [])) }
    ensures threads { IfOk result (λ bundle. bundle.threads.items ≡ []) }
{
    let mut objects = IndexMap::new(alloc);
    objects.insert(String::from_str(alloc, "o")?, object)?;
    Ok(Bundle {
        limit: 64,
        objects,
        threads: Vec::new(alloc),
    })
}

// Asserts the line of an object, where the store has these values.
fn shows(
    rt: &impl Abort,
    alloc: Global,
    object: Object,
    values: &[u32],
    text: &str,
) -> Result<(), Fail>
    requires { ObjectIsWithin (length values.now) object }
{
    let bundle = bundle_of(alloc, object)?;
    let store = PlainStore::open(alloc, values)?;
    let mut sink = FrailSink::new(alloc, 100, Vec::new(alloc))?;
    write_state(&bundle, &store, &mut sink)?;
    equal(rt, sink.bytes(), text.as_bytes());
    Ok(())
}

#[test]
fn a_location_shows_its_value(rt: HostRuntime) -> Result<(), Fail> {
    let x = Object::Loc {
        at: Loc(1),
        value: 5,
    };
    shows(&rt, rt.alloc(), x, &[0, 7], "o 7\n")?;
    Ok(())
}

#[test]
fn a_stack_is_shown_from_the_top(rt: HostRuntime) -> Result<(), Fail> {
    let stack = Object::Stack(Stack::layout(Loc(1), 3));
    shows(&rt, rt.alloc(), stack, &[0, 2, 7, 8, 9], "o 8 7\n")?;
    shows(&rt, rt.alloc(), stack, &[0, 9, 7, 8, 9], "o 9 8 7\n")?;
    shows(&rt, rt.alloc(), stack, &[0, 0, 7, 8, 9], "o\n")?;
    Ok(())
}

#[test]
fn a_queue_is_shown_from_the_front(rt: HostRuntime) -> Result<(), Fail> {
    let queue = Object::Queue(Queue::layout(Loc(1), 3));
    shows(&rt, rt.alloc(), queue, &[0, 2, 3, 7, 8, 9], "o 9 7 8\n")?;
    shows(&rt, rt.alloc(), queue, &[0, 5, 2, 7, 8, 9], "o 7 8\n")?;
    Ok(())
}

#[test]
fn a_place_is_shown_as_its_value_or_none(rt: HostRuntime) -> Result<(), Fail> {
    let mvar = Object::Mvar(Mvar::layout(Loc(1)));
    let promise = Object::Promise(Promise::layout(Loc(1)));
    shows(&rt, rt.alloc(), mvar, &[0, 0, 4], "o none\n")?;
    shows(&rt, rt.alloc(), mvar, &[0, 1, 4], "o 4\n")?;
    shows(&rt, rt.alloc(), promise, &[0, 0, 0], "o none\n")?;
    shows(&rt, rt.alloc(), promise, &[0, 1, 0], "o 0\n")?;
    Ok(())
}

#[test]
fn an_accumulator_is_shown_as_its_sum(rt: HostRuntime) -> Result<(), Fail> {
    let acc = Object::Acc(Accumulator::layout(Loc(1), 2));
    shows(&rt, rt.alloc(), acc, &[0, 4_294_967_295, 3], "o 2\n")?;
    Ok(())
}

#[test]
fn a_table_is_shown_in_rising_order_of_key(rt: HostRuntime) -> Result<(), Fail> {
    let table = Object::Hash(Hash::layout(Loc(1), 2, 3));
    let values = [0, 3, 0, 2, 1, 5, 50, 3, 8, 80, 0, 1, 10, 0];
    shows(&rt, rt.alloc(), table, &values, "o 1=10 5=50 8=80\n")?;
    let circle = [0, 1, 0, 1, 0, 4, 40, 1, 0, 0, 0, 0, 0, 0];
    shows(&rt, rt.alloc(), table, &circle, "o 4=40\n")?;
    Ok(())
}

// A number of buckets that is too great counts as 1.
#[test]
fn a_table_that_grows_is_shown_as_a_table(rt: HostRuntime) -> Result<(), Fail> {
    let grow = Object::Grow(Grow::layout(Loc(1), 2));
    let values = [0, 2, 0, 2, 2, 1, 3, 30, 0, 8, 80, 0];
    shows(&rt, rt.alloc(), grow, &values, "o 3=30 8=80\n")?;
    let many = [0, 2, 0, 3, 2, 1, 3, 30, 0, 8, 80, 0];
    shows(&rt, rt.alloc(), grow, &many, "o 8=80\n")?;
    Ok(())
}

#[test]
fn a_cache_is_shown_from_the_most_recent_pair(rt: HostRuntime) -> Result<(), Fail> {
    let cache = Object::Cache(Cache::layout(Loc(1), 1, 2));
    let values = [
        0, 0, 2, 0, 1, 8, 1, 2, 5, 2, 0, 2, 1, 0, 8, 2, 0, 5, 0, 1, 80, 50,
    ];
    shows(&rt, rt.alloc(), cache, &values, "o 5=50 8=80\n")?;
    Ok(())
}

// Asserts the values with which a bundle of this object opens.
fn opens(rt: &impl Abort, alloc: Global, object: Object, values: &[u32]) -> Result<(), Fail>
    requires first { base object ≡ 1 }
    requires within { 1 + cells object ≤ 65536 }
{
    let bundle = bundle_of(alloc, object)?;
    let opened = opening(alloc, &bundle)?;
    equal(rt, opened.as_slice(), values);
    Ok(())
}

#[test]
fn objects_open_with_their_values(rt: HostRuntime) -> Result<(), Fail> {
    let base = Loc(1);
    opens(&rt, rt.alloc(), Object::Loc { at: base, value: 5 }, &[0, 5])?;
    opens(
        &rt,
        rt.alloc(),
        Object::Stack(Stack::layout(base, 2)),
        &[0, 0, 0, 0],
    )?;
    opens(
        &rt,
        rt.alloc(),
        Object::Queue(Queue::layout(base, 1)),
        &[0, 0, 0, 0],
    )?;
    opens(
        &rt,
        rt.alloc(),
        Object::Mvar(Mvar::layout(base)),
        &[0, 0, 0],
    )?;
    opens(
        &rt,
        rt.alloc(),
        Object::Promise(Promise::layout(base)),
        &[0, 0, 0],
    )?;
    opens(
        &rt,
        rt.alloc(),
        Object::Acc(Accumulator::layout(base, 1)),
        &[0, 0],
    )?;
    let cache = Cache::layout(base, 1, 1);
    let opened = [0, 1, 0, 1, 0, 0, 0, 0, 0, 0, 1, 0, 0, 0, 0];
    opens(&rt, rt.alloc(), Object::Cache(cache), &opened)?;
    let table = Hash::layout(base, 1, 2);
    opens(
        &rt,
        rt.alloc(),
        Object::Hash(table),
        &[0, 0, 1, 0, 0, 0, 2, 0, 0, 0],
    )?;
    let grow = Grow::layout(base, 2);
    opens(
        &rt,
        rt.alloc(),
        Object::Grow(grow),
        &[0, 0, 1, 1, 0, 0, 0, 0, 2, 0, 0, 0],
    )?;
    Ok(())
}

#[test]
fn a_command_is_one_operation_or_a_block(rt: HostRuntime) -> Result<(), Fail> {
    let Ok(store) = PlainStore::open(rt.alloc(), &[0, 0, 0, 0]) else {
        return Err(Fail::from("no memory"));
    };
    if store.len() < 4 {
        return Err(Fail::from("too few locations"));
    }
    let mut room = Room::new();
    let mut xt = Xt::new(PlainPeek::new(&store), &mut room, MOST as u32);
    let stack = Stack::layout(Loc(1), 2);
    let op = |act: StackAct| Op::Stack(StackOp { stack, act });
    let push = Command::One(op(StackAct::Push(4)));
    let pop = Command::Block(Term::op(op(StackAct::PopWait)));
    equal(&rt, push.bound(), 4);
    equal(&rt, pop.bound(), 4);
    equal(&rt, pop.run(&mut xt), Err(Stop::Retry));
    equal(&rt, push.run(&mut xt), Ok(Reply::Unit));
    equal(&rt, pop.run(&mut xt), Ok(Reply::Value(4)));
    Ok(())
}

#[test]
fn a_cancel_sets_the_flag_of_its_thread(rt: HostRuntime) -> Result<(), Fail> {
    let Ok(store) = PlainStore::open(rt.alloc(), &[3, 7]) else {
        return Err(Fail::from("no memory"));
    };
    if store.len() < 2 {
        return Err(Fail::from("too few locations"));
    }
    let mut room = Room::new();
    let mut xt = Xt::new(PlainPeek::new(&store), &mut room, MOST as u32);
    let live = Loc(0);
    let first = Op::Cancel(Cancel { live, thread: 1 });
    let last = Command::One(Op::Cancel(Cancel { live, thread: 16 }));
    equal(&rt, last.bound(), 1);
    equal(&rt, first.run(&mut xt), Ok(Reply::Unit));
    equal(&rt, last.run(&mut xt), Ok(Reply::Unit));
    equal(&rt, first.run(&mut xt), Ok(Reply::Unit));
    let value = 3 + (1 << 16) + (1 << 31);
    equal(&rt, xt.get(live), Ok(value));
    equal(&rt, live_threads(value), 3);
    holds(
        &rt,
        is_flagged(1, value) && !is_flagged(2, value) && is_flagged(16, value),
    );
    equal(&rt, cleared(16, value), 3 + (1 << 16));
    equal(&rt, cleared(2, value), value);
    Ok(())
}
