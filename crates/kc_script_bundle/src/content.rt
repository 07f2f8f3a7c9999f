//! The text of what one object holds. Each part begins with a space.

ghost use Rattle.std.specs.Prelude.{◌≤◌, ◌<◌, length};
ghost use Rattle.std.specs.List.{flat_map};
ghost use Rattle.kc_model.specs.Store.{store_of};
ghost use Rattle.kc_model.specs.Pen.{PenPuts};
ghost use Rattle.kc_xt.specs.Meaning.{values};
ghost use Rattle.kc_stack.specs.Meaning.{stack_cells_end};
ghost use Rattle.kc_queue.specs.Meaning.{queue_cells_end};
ghost use Rattle.kc_cache.specs.Content.{cache_shown};
ghost use Rattle.kc_grow.specs.Content.{grown_shown};
ghost use Rattle.kc_hash.specs.Content.{hash_shown as table_shown};
ghost use Rattle.kc_script_bundle.specs.State.{place, stack_shown, queue_shown, number_text, pair_text, content_text};

use kc_cache::Cache;
use kc_grow::Grow;
use kc_hash::{Hash, Pairs};
use kc_model::{Loc, Pen, PlainStore, Sink};
use kc_queue::Queue;
use kc_stack::Stack;

pub(crate) fn put_number<K: Sink>(pen: &mut Pen<K>, number: u32)
    ensures { PenPuts K.written K.faults K.write_gives pen.old pen.new (number_text number) }
{
    pen.put(b" ");
    pen.put_number(number);
}

fn put_pair<K: Sink>(pen: &mut Pen<K>, key: u32, value: u32)
    ensures { PenPuts K.written K.faults K.write_gives pen.old pen.new (pair_text (key, value)) }
{
    pen.put(b" ");
    pen.put_number(key);
    pen.put(b"=");
    pen.put_number(value);
}

pub(crate) fn put_location<K: Sink>(pen: &mut Pen<K>, store: &PlainStore, at: Loc)
    requires { at.0 < length store.now }
    ensures { PenPuts K.written K.faults K.write_gives pen.old pen.new (number_text (values (store_of store.now) at.0)) }
{
    match store.get(at) {
        Some(value) => put_number(pen, value),
        None => unreachable!("the store has the location"),
    }
}

pub(crate) fn put_place<K: Sink>(pen: &mut Pen<K>, held: Option<u32>)
    ensures { PenPuts K.written K.faults K.write_gives pen.old pen.new (content_text (place held)) }
{
    match held {
        Some(value) => put_number(pen, value),
        None => pen.put(b" none"),
    }
}

/// The items, from the top.
pub(crate) fn put_stack<K: Sink>(pen: &mut Pen<K>, store: &PlainStore, stack: Stack)
    requires { stack_cells_end stack ≤ length store.now }
    ensures { PenPuts K.written K.faults K.write_gives pen.old pen.new (flat_map number_text (stack_shown stack (values (store_of store.now)))) }
{
    for i in 0..stack.count(store) {
        put_number(pen, stack.item(store, i));
    }
}

/// The items, from the front.
pub(crate) fn put_queue<K: Sink>(pen: &mut Pen<K>, store: &PlainStore, queue: Queue)
    requires { queue_cells_end queue ≤ length store.now }
    ensures { PenPuts K.written K.faults K.write_gives pen.old pen.new (flat_map number_text (queue_shown queue (values (store_of store.now)))) }
{
    for i in 0..queue.count(store) {
        put_number(pen, queue.item(store, i));
    }
}

// The pairs, in the order in which they come.
fn put_pairs<K: Sink>(pen: &mut Pen<K>, mut pairs: Pairs)
    ensures { PenPuts K.written K.faults K.write_gives pen.old pen.new (flat_map pair_text pairs.entry) }
{
    while let Some((key, value)) = pairs.next() {
        put_pair(pen, key, value);
    }
}

/// The pairs of a table, in rising order of key. Kept apart from other objects, for which the room for pairs would be wiped too.
#[inline(never)]
pub(crate) fn put_hash<K: Sink>(pen: &mut Pen<K>, store: &PlainStore, hash: Hash)
    ensures { PenPuts K.written K.faults K.write_gives pen.old pen.new (flat_map pair_text (table_shown hash (values (store_of store.now)))) }
{
    put_pairs(pen, hash.pairs(store));
}

/// The pairs of a table that grows, in rising order of key. Kept apart, as those of a table are.
#[inline(never)]
pub(crate) fn put_grow<K: Sink>(pen: &mut Pen<K>, store: &PlainStore, grow: Grow)
    ensures { PenPuts K.written K.faults K.write_gives pen.old pen.new (flat_map pair_text (grown_shown grow (values (store_of store.now)))) }
{
    put_pairs(pen, grow.pairs(store));
}

/// The pairs, from the most recently used one. Kept apart, as those of a table are.
#[inline(never)]
pub(crate) fn put_cache<K: Sink>(pen: &mut Pen<K>, store: &PlainStore, cache: Cache)
    ensures { PenPuts K.written K.faults K.write_gives pen.old pen.new (flat_map pair_text (cache_shown cache (values (store_of store.now)))) }
{
    let mut pairs = cache.pairs(store);
    while let Some((key, value)) = pairs.next() {
        put_pair(pen, key, value);
    }
}
