//! Structures by their kinds, where they have a size that there is and all cells in a store.

ghost use Rattle.std.specs.Prelude.{◌≡◌, ◌≤◌, ◌+◌, ◌&&◌, nat_le};
ghost use Rattle.kc_calls.specs.Structures.{location_at, call_stack_at, call_queue_at, call_table_at, call_grow_at, call_cache_at, call_mvar_at, call_promise_at, accumulator_at};
ghost use Rattle.kc_model.specs.declared.plain_store.TheConstants.{MOST_LOCATIONS};

use kc_cache::Cache;
use kc_cells::{Accumulator, MOST_CELLS, Mvar, Promise};
use kc_grow::Grow;
use kc_hash::Hash;
use kc_model::{Loc, MOST_LOCATIONS};
use kc_queue::Queue;
use kc_script_bundle::Object;
use kc_stack::Stack;
use kc_xt::{MOST_BUCKETS, MOST_ITEMS};

const END: u32 = MOST_LOCATIONS as u32;

// A size is 1 to the most.
fn is_size(size: u32, most: u32) -> bool
    ensures { result ≡ (nat_le 1 size && nat_le size most) }
{
    size >= 1 && size <= most
}

// So many cells from a location on are locations of a store.
pub(crate) fn has_room(base: u32, cells: u32) -> bool
    ensures { result ≡ nat_le (base + cells) MOST_LOCATIONS }
{
    base <= END && cells <= END - base
}

pub(crate) fn location_at(base: u32) -> Option<Object>
    ensures { result ≡ location_at base }
{
    if !has_room(base, 1) {
        return None;
    }
    Some(Object::Loc {
        at: Loc(base),
        value: 0,
    })
}

pub(crate) fn stack_at(base: u32, capacity: u32) -> Option<Object>
    ensures { result ≡ call_stack_at base capacity }
{
    if !is_size(capacity, MOST_ITEMS) {
        return None;
    }
    if !has_room(base, 1 + capacity) {
        return None;
    }
    Some(Object::Stack(Stack::layout(Loc(base), capacity)))
}

pub(crate) fn queue_at(base: u32, capacity: u32) -> Option<Object>
    ensures { result ≡ call_queue_at base capacity }
{
    if !is_size(capacity, MOST_ITEMS) {
        return None;
    }
    if !has_room(base, 2 + capacity) {
        return None;
    }
    Some(Object::Queue(Queue::layout(Loc(base), capacity)))
}

pub(crate) fn table_at(base: u32, buckets: u32, capacity: u32) -> Option<Object>
    ensures { result ≡ call_table_at base buckets capacity }
{
    if !is_size(buckets, MOST_BUCKETS) {
        return None;
    }
    if !is_size(capacity, MOST_ITEMS) {
        return None;
    }
    if !has_room(base, 2 + buckets + 3 * capacity) {
        return None;
    }
    Some(Object::Hash(Hash::layout(Loc(base), buckets, capacity)))
}

pub(crate) fn grow_at(base: u32, capacity: u32) -> Option<Object>
    ensures { result ≡ call_grow_at base capacity }
{
    if !is_size(capacity, MOST_ITEMS) {
        return None;
    }
    if !has_room(base, 3 + capacity + 3 * capacity) {
        return None;
    }
    Some(Object::Grow(Grow::layout(Loc(base), capacity)))
}

pub(crate) fn cache_at(base: u32, buckets: u32, capacity: u32) -> Option<Object>
    ensures { result ≡ call_cache_at base buckets capacity }
{
    if !is_size(buckets, MOST_BUCKETS) {
        return None;
    }
    if !is_size(capacity, MOST_ITEMS) {
        return None;
    }
    if !has_room(base, 6 + buckets + 7 * capacity) {
        return None;
    }
    Some(Object::Cache(Cache::layout(Loc(base), buckets, capacity)))
}

pub(crate) fn mvar_at(base: u32) -> Option<Object>
    ensures { result ≡ call_mvar_at base }
{
    if !has_room(base, 2) {
        return None;
    }
    Some(Object::Mvar(Mvar::layout(Loc(base))))
}

pub(crate) fn promise_at(base: u32) -> Option<Object>
    ensures { result ≡ call_promise_at base }
{
    if !has_room(base, 2) {
        return None;
    }
    Some(Object::Promise(Promise::layout(Loc(base))))
}

pub(crate) fn accumulator_at(base: u32, cells: u32) -> Option<Object>
    ensures { result ≡ accumulator_at base cells }
{
    if !is_size(cells, MOST_CELLS) {
        return None;
    }
    if !has_room(base, cells) {
        return None;
    }
    Some(Object::Acc(Accumulator::layout(Loc(base), cells)))
}
