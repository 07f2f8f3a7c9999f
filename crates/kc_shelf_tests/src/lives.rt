//! What one caller sees of slots, lives and names.

ghost use Rattle.std.specs.Prelude.{◌≡◌, ◌≤◌};
ghost use Rattle.kc_shelf.specs.Meaning.{IsTicket, shelf_cells_end};

use crate::shop::{Four, Load, Shop, Tally, count_out, equal, give_up, open, put, reply, take_out};
use kc_model::Reply;
use kc_shelf::{Dropped, Renewed, Vacant, drop_name, renew};
use kc_store::Caller;
use std::alloc::Global;
use std::process::Abort;
use std::sync::Wait;
use std::sync::atomic::Ordering::SeqCst;
use std::test::Fail;

// Whether the value of a ticket is there.
fn reads(shop: &Shop<'_>, ticket: u32) -> bool {
    shop.pool.read(ticket, |load: &Load<'_>| load.is_whole()) == Some(true)
}

// Whether a value is taken under a ticket.
fn fills<'a>(alloc: Global, shop: &Shop<'a>, tally: &'a Tally, ticket: u32) -> Option<bool> {
    let value = Load::new(alloc, tally, ticket)?;
    Some(shop.pool.fill(ticket, value).is_ok())
}

// What a name more replies.
fn names<R: Wait>(rt: &R, shop: &Shop<'_>, caller: &mut Caller, ticket: u32) -> Option<Reply>
    requires caller { caller.old.of ≡ shop.now.store }
    requires ticket { IsTicket shop.now.pool.shelf ticket }
    ensures { caller.new.of ≡ caller.old.of }
{
    reply(rt, shop, caller, &shop.pool.shelf().name(ticket))
}

// Gives the last name up and begins the slot's next life: its ticket.
fn next<R: Wait>(
    rt: &R,
    shop: &Shop<'_>,
    caller: &mut Caller,
    tally: &Tally,
    ticket: u32,
) -> Option<u32>
    requires caller { caller.old.of ≡ shop.now.store }
    requires ticket { IsTicket shop.now.pool.shelf ticket }
    ensures { caller.new.of ≡ caller.old.of }
{
    match drop_name(rt, &shop.store, caller, &shop.pool, ticket) {
        Dropped::Last {
            value,
            slot,
            footprint: _,
        } => {
            count_out(tally, &value);
            begin_next(rt, caller, slot)
        }
        Dropped::Bare { slot, footprint: _ } => {
            slot.lose();
            None
        }
        Dropped::Left { outcome: _ } => None,
    }
}

fn begin_next<R: Wait>(rt: &R, caller: &mut Caller, slot: Vacant<'_>) -> Option<u32>
    requires caller { caller.old.of ≡ slot.store.now }
    requires within { shelf_cells_end slot.shelf ≤ slot.store.now.locations }
    ensures { caller.new.of ≡ caller.old.of }
{
    match renew(rt, caller, slot) {
        Renewed::Done {
            ticket,
            footprint: _,
        } => Some(ticket),
        Renewed::Kept { slot, outcome: _ } => {
            slot.lose();
            None
        }
    }
}

// A ticket's life from its first name to its last, and its slot's next one.
fn one_life<'a, R: Wait + Abort>(
    rt: &R,
    alloc: Global,
    shop: &Shop<'a>,
    caller: &mut Caller,
    tally: &'a Tally,
    first: u32,
)
    requires caller { caller.old.of ≡ shop.now.store }
    requires ticket { IsTicket shop.now.pool.shelf first }
    ensures { caller.new.of ≡ caller.old.of }
{
    equal(rt, names(rt, shop, caller, first), Some(Reply::Unit));
    let dropped = drop_name(rt, &shop.store, caller, &shop.pool, first);
    equal(rt, matches!(&dropped, Dropped::Left { .. }), true);
    take_out(rt, shop, caller, tally, dropped);
    equal(rt, reads(shop, first), true);
    let second = next(rt, shop, caller, tally, first).unwrap_or(0);
    equal(rt, reads(shop, first), false);
    equal(rt, names(rt, shop, caller, first), Some(Reply::Bool(false)));
    equal(rt, fills(alloc, shop, tally, first), Some(false));
    equal(rt, fills(alloc, shop, tally, second), Some(true));
    equal(rt, fills(alloc, shop, tally, second), Some(false));
    equal(rt, reads(shop, first), false);
    equal(rt, reads(shop, second), true);
    give_up(rt, shop, caller, tally, second);
    equal(rt, reads(shop, second), false);
}

fn lives<'a, R: Wait + Abort>(rt: &R, alloc: Global, shop: &Shop<'a>, four: Four, tally: &'a Tally)
    requires { four.a.of ≡ shop.now.store }
{
    let Four { a, b, c, d } = four;
    drop((b, c, d));
    let mut caller = a;
    if let Some(value) = Load::new(alloc, tally, 7) {
        let first = put(rt, shop, &mut caller, value).unwrap_or(0);
        if shop.pool.shelf().has(first) {
            one_life(rt, alloc, shop, &mut caller, tally, first);
        }
    }
}

#[test]
fn a_ticket_is_read_in_its_own_life_alone(rt: HostRuntime) -> Result<(), Fail> {
    let tally = Tally::new();
    let Some((shop, four)) = open(rt.alloc()) else {
        return Err(Fail::from("not opened"));
    };
    lives(&rt, rt.alloc(), &shop, four, &tally);
    equal(&rt, tally.made.load(SeqCst), 4);
    equal(&rt, tally.dropped.load(SeqCst), 4);
    equal(&rt, tally.out.load(SeqCst), 2);
    equal(&rt, tally.bad.load(SeqCst), 0);
    Ok(())
}
