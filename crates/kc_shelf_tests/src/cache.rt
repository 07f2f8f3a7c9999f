//! A cache of strings, with a place for each remainder of a key: what is put there later drops what was there.

ghost use Rattle.std.specs.Prelude.{◌≡◌, ◌≤◌, ◌<◌};
ghost use Rattle.kc_shelf_tests.specs.declared.shop.TheConstants.{PLACES};

use crate::shop::{
    Four, Load, PLACES, Shop, Tally, add, ended_well, give_up, open, put, swap_in, take_out,
};
use kc_model::Loc;
use kc_shelf::{Read, read_at};
use kc_store::Caller;
use std::alloc::Global;
use std::sync::Wait;
use std::test::Fail;
use std::thread;
use std::thread::Threads;

// By each of the two threads that keep strings.
const KEPT: u32 = 50_000;

// Keeps a value in the place of its number, and gives up what was there.
fn keep<'a, R: Wait>(rt: &R, shop: &Shop<'a>, caller: &mut Caller, tally: &Tally, value: Load<'a>)
    requires { caller.old.of ≡ shop.now.store }
    ensures { caller.new.of ≡ caller.old.of }
{
    let place = value.id % PLACES;
    match put(rt, shop, caller, value) {
        Some(ticket) => {
            let evicted = swap_in(rt, shop, caller, place, ticket);
            give_up(rt, shop, caller, tally, evicted);
        }
        None => add(&tally.bad),
    }
}

fn write<'a, R: Wait>(
    rt: &R,
    alloc: Global,
    shop: &Shop<'a>,
    mut caller: Caller,
    tally: &'a Tally,
    first: u32,
) -> Caller
    requires { caller.of ≡ shop.now.store }
    ensures { result.of ≡ caller.of }
{
    'values: for i in 0..KEPT {
        if let Some(value) = Load::new(alloc, tally, first.wrapping_add(i)) {
            keep(rt, shop, &mut caller, tally, value);
        }
    }
    caller
}

// Looks a place up.
fn look<R: Wait>(rt: &R, shop: &Shop<'_>, caller: &mut Caller, tally: &Tally, place: u32)
    requires caller { caller.old.of ≡ shop.now.store }
    requires place { place < PLACES }
    ensures { caller.new.of ≡ caller.old.of }
{
    let read = read_at(
        rt,
        &shop.store,
        caller,
        &shop.pool,
        Loc(place),
        |load: &Load<'_>| load.is_whole() && load.id % PLACES == place,
    );
    match read {
        Read::Read {
            ticket: _,
            result,
            lease: _,
            back,
        } => {
            if result == Some(true) {
                add(&tally.read);
            } else {
                add(&tally.bad);
            }
            take_out(rt, shop, caller, tally, back);
        }
        Read::Not { outcome: _ } => {}
    }
}

fn read<R: Wait>(rt: &R, shop: &Shop<'_>, mut caller: Caller, tally: &Tally) -> Caller
    requires { caller.of ≡ shop.now.store }
    ensures { result.of ≡ caller.of }
{
    'looks: for i in 0..KEPT {
        look(rt, shop, &mut caller, tally, i % PLACES);
    }
    caller
}

fn pair<'a, R: Threads + Wait + Sync>(
    rt: &R,
    alloc: Global,
    shop: &Shop<'a>,
    writer: Caller,
    reader: Caller,
    tally: &'a Tally,
    first: u32,
) -> (Caller, Caller)
    requires writer { writer.of ≡ shop.now.store }
    requires reader { reader.of ≡ shop.now.store }
{
    thread::join(
        rt,
        move || write(rt, alloc, shop, writer, tally, first),
        move || read(rt, shop, reader, tally),
    )
}

// Clears the places.
fn clear<R: Wait>(rt: &R, shop: &Shop<'_>, mut caller: Caller, tally: &Tally)
    requires { caller.of ≡ shop.now.store }
{
    'places: for place in 0..PLACES {
        let evicted = swap_in(rt, shop, &mut caller, place, 0);
        give_up(rt, shop, &mut caller, tally, evicted);
    }
}

// Two threads that keep strings, and one that looks them up; the fourth caller clears the places behind them.
fn by_three<'a, R: Threads + Wait + Sync>(
    rt: &R,
    alloc: Global,
    shop: &Shop<'a>,
    four: Four,
    tally: &'a Tally,
)
    requires a { four.a.of ≡ shop.now.store }
    requires b { four.b.of ≡ shop.now.store }
    requires c { four.c.of ≡ shop.now.store }
    requires d { four.d.of ≡ shop.now.store }
{
    let Four { a, b, c, d } = four;
    thread::join(
        rt,
        move ||
            requires { (a.of ≡ shop.now.store) × (b.of ≡ shop.now.store) }
        { pair(rt, alloc, shop, a, b, tally, 0) },
        move || write(rt, alloc, shop, c, tally, KEPT),
    );
    clear(rt, shop, d, tally);
}

#[test]
fn what_a_cache_evicts_is_dropped_once(rt: HostRuntime) -> Result<(), Fail> {
    let tally = Tally::new();
    let Some((shop, four)) = open(rt.alloc()) else {
        return Err(Fail::from("not opened"));
    };
    by_three(&rt, rt.alloc(), &shop, four, &tally);
    ended_well(&rt, &tally, 2 * KEPT);
    Ok(())
}
