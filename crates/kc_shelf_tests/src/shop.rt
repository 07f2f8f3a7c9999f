//! A store with four places, a shelf and a queue; and values that are counted.

ghost use Rattle.std.specs.Prelude.{◌≡◌, ◌≤◌, ◌<◌, ◌+◌, IfSome, length};
ghost use Rattle.kc_queue.specs.Meaning.{queue_cells_end};
ghost use Rattle.kc_shelf.specs.Meaning.{shelf_cells_end};
ghost use Rattle.kc_shelf_tests.specs.Shop.{HasSlotOf};
ghost use Rattle.kc_shelf_tests.specs.declared.shop.TheConstants.{PLACES};

use kc_loc::LocOp;
use kc_model::{Loc, Reply};
use kc_queue::Queue;
use kc_shelf::{Dropped, Freed, Holds, Pool, Put, Shelf, drop_name, free, put_value};
use kc_store::{Caller, Outcome, Store};
use kc_xt::Transact;
use std::alloc::Global;
use std::fmt::Debug;
use std::process::Abort;
use std::sync::Wait;
use std::sync::atomic::AtomicUsize;
use std::sync::atomic::Ordering::SeqCst;
use std::thread;

pub(crate) const PLACES: u32 = 4;

pub(crate) const SLOTS: u32 = 16;

/// What was seen of the values.
#[derive(Drop)]
pub(crate) struct Tally {
    pub(crate) made: AtomicUsize,
    pub(crate) dropped: AtomicUsize,
    pub(crate) out: AtomicUsize,
    pub(crate) read: AtomicUsize,
    pub(crate) bad: AtomicUsize,
}

impl Tally {
    pub(crate) fn new() -> Tally {
        Tally {
            made: AtomicUsize::new(0),
            dropped: AtomicUsize::new(0),
            out: AtomicUsize::new(0),
            read: AtomicUsize::new(0),
            bad: AtomicUsize::new(0),
        }
    }
}

pub(crate) fn add(count: &AtomicUsize) {
    let _ = count.fetch_add(1, SeqCst);
}

/// A number, and its four bytes in a box of their own. Its drop is counted.
pub(crate) struct Load<'a> {
    pub(crate) id: u32,
    text: Vec<u8>,
    tally: &'a Tally,
}

impl Drop for Load<'_> {
    fn drop(self) {
        let Load { id: _, text, tally } = self;
        drop(text);
        add(&tally.dropped);
    }
}

impl Load<'_> {
    pub(crate) fn new<'a>(alloc: Global, tally: &'a Tally, id: u32) -> Option<Load<'a>> {
        let mut text = Vec::new(alloc);
        for shift in 0..4u32 {
            text.push(((id >> (8 * shift)) & 0xff) as u8).ok()?;
        }
        add(&tally.made);
        Some(Load { id, text, tally })
    }

    pub(crate) fn is_whole(&self) -> bool {
        let mut id = 0u32;
        for (at, byte) in self.text.iter().enumerate() {
            if at < 4 {
                id |= (*byte as u32) << (8 * at as u32);
            }
        }
        id == self.id && self.text.len() == 4
    }
}

/// The fact says nothing.
pub(crate) struct Any;

impl Holds<Load<'_>> for Any {
    ghost holds = { λ _ _. Unit {0} };
}

/// What threads share.
#[derive(Drop)]
pub(crate) struct Shop<'a> {
    pub(crate) store: Store,
    pub(crate) pool: Pool<Load<'a>, Any>,
    pub(crate) jobs: Queue,
    ghost of: { pool.of ≡ store },
    ghost places: { PLACES ≤ store.locations },
    ghost cells: { shelf_cells_end pool.shelf ≤ store.locations },
    ghost queued: { queue_cells_end jobs ≤ store.locations },
}

/// Four callers.
#[derive(Drop)]
pub(crate) struct Four {
    pub(crate) a: Caller,
    pub(crate) b: Caller,
    pub(crate) c: Caller,
    pub(crate) d: Caller,
}

/// A shop with four callers.
pub(crate) fn open<'a>(alloc: Global) -> Option<(Shop<'a>, Four)>
    ensures a { IfSome result (λ r. r.1.a.of ≡ r.0.store) }
    ensures b { IfSome result (λ r. r.1.b.of ≡ r.0.store) }
    ensures c { IfSome result (λ r. r.1.c.of ≡ r.0.store) }
    ensures d { IfSome result (λ r. r.1.d.of ≡ r.0.store) }
{
    let shelf = Shelf::layout(Loc(PLACES), SLOTS);
    let jobs = Queue::layout(Loc(PLACES + 1 + 3 * SLOTS), 8);
    let mut values = Vec::from_array(alloc, [0; 63]).ok()?;
    for index in 0..shelf.cells() {
        values[(PLACES + index) as usize] = shelf.opening(index);
    }
    let Ok((store, mut callers)) = Store::open(alloc, &values, 4) else {
        return None;
    };
    let d = callers.pop()?;
    let c = callers.pop()?;
    let b = callers.pop()?;
    let a = callers.pop()?;
    let Ok(pool) = Pool::open(alloc, &store, shelf) else {
        return None;
    };
    Some((Shop { store, pool, jobs }, Four { a, b, c, d }))
}

/// What a commit replies.
pub(crate) fn reply<R: Wait, T: Transact>(
    rt: &R,
    shop: &Shop<'_>,
    caller: &mut Caller,
    transaction: &T,
) -> Option<Reply>
    requires caller { caller.old.of ≡ shop.now.store }
    requires fit { T.is_fit transaction.now }
    requires within { T.end transaction.now ≤ shop.now.store.locations }
    ensures { caller.new.of ≡ caller.old.of }
{
    match shop.store.commit(rt, caller, transaction) {
        Outcome::Done {
            reply,
            footprint: _,
        } => Some(reply),
        _ => None,
    }
}

/// Puts a value on the shelf, as soon as a slot is free: its ticket.
pub(crate) fn put<'a, R: Wait>(
    rt: &R,
    shop: &Shop<'a>,
    caller: &mut Caller,
    value: Load<'a>,
) -> Option<u32>
    requires { caller.old.of ≡ shop.now.store }
    ensures { caller.new.of ≡ caller.old.of }
{
    let mut value = value;
    'tries: for _ in rt.forever() {
        match put_value(rt, &shop.store, caller, &shop.pool, value) {
            Put::Done {
                ticket,
                footprint: _,
            } => return Some(ticket),
            Put::Refused { value: back, .. } => value = back,
            Put::Blocked { .. } => return None,
        }
        thread::yield_now();
    }
    unreachable!()
}

/// Gives a name up. Where it was the last one, the value is counted, and its slot is free again.
pub(crate) fn give_up<R: Wait>(
    rt: &R,
    shop: &Shop<'_>,
    caller: &mut Caller,
    tally: &Tally,
    ticket: u32,
)
    requires { caller.old.of ≡ shop.now.store }
    ensures { caller.new.of ≡ caller.old.of }
{
    if !shop.pool.shelf().has(ticket) {
        return;
    }
    let dropped = drop_name(rt, &shop.store, caller, &shop.pool, ticket);
    take_out(rt, shop, caller, tally, dropped);
}

/// Counts the value that came of giving a name up, and frees its slot.
pub(crate) fn take_out<R: Wait>(
    rt: &R,
    shop: &Shop<'_>,
    caller: &mut Caller,
    tally: &Tally,
    dropped: Dropped<'_, Load<'_>>,
)
    requires caller { caller.old.of ≡ shop.now.store }
    requires slot { HasSlotOf shop.now.store shop.now.pool.shelf dropped }
    ensures { caller.new.of ≡ caller.old.of }
{
    match dropped {
        Dropped::Last {
            value,
            slot,
            footprint: _,
        } => {
            count_out(tally, &value);
            let freed = free(rt, caller, slot);
            count_freed(tally, freed);
        }
        Dropped::Bare { slot, footprint: _ } => {
            add(&tally.bad);
            let freed = free(rt, caller, slot);
            count_freed(tally, freed);
        }
        Dropped::Left { outcome: _ } => {}
    }
}

pub(crate) fn count_out(tally: &Tally, value: &Load<'_>) {
    add(&tally.out);
    if !value.is_whole() {
        add(&tally.bad);
    }
}

fn count_freed(tally: &Tally, freed: Freed<'_>) {
    match freed {
        Freed::Done {
            rests: _,
            footprint: _,
        } => {}
        Freed::Kept { slot, outcome: _ } => {
            add(&tally.bad);
            slot.lose();
        }
    }
}

/// What a location held, which holds this ticket now.
pub(crate) fn swap_in<R: Wait>(
    rt: &R,
    shop: &Shop<'_>,
    caller: &mut Caller,
    place: u32,
    ticket: u32,
) -> u32
    requires caller { caller.old.of ≡ shop.now.store }
    requires place { place < PLACES }
    ensures { caller.new.of ≡ caller.old.of }
{
    match reply(rt, shop, caller, &LocOp::Exchange(Loc(place), ticket)) {
        Some(Reply::Value(old)) => old,
        _ => 0,
    }
}

/// Assertions as a function: a test that calls one is proved faster.
pub(crate) fn equal<T: Copy + Debug + PartialEq>(rt: &impl Abort, came: T, wanted: T) {
    assert_eq!(rt; came, wanted);
}

/// So many values were made, each was taken out once and dropped, and none was torn.
pub(crate) fn ended_well(rt: &impl Abort, tally: &Tally, many: u32) {
    equal(rt, tally.made.load(SeqCst), many as usize);
    equal(rt, tally.out.load(SeqCst), many as usize);
    equal(rt, tally.dropped.load(SeqCst), many as usize);
    equal(rt, tally.bad.load(SeqCst), 0);
}
