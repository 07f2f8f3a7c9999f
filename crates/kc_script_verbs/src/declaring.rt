//! Lines that declare an object.

ghost use Rattle.std.specs.Prelude.{◌≡◌, ◌≤◌, ◌++◌, ◌∷◌, [], map, length, IfOk, OnErr};
ghost use Rattle.kc_script_bundle.specs.Script.{names_of, next_from};
ghost use Rattle.kc_script_lines.specs.Gives.{GivesAsGrammar};
ghost use Rattle.kc_script_lines.specs.Tests.{word_at};
ghost use Rattle.kc_script_verbs.specs.Declaring.{fields, loc_at, stack_at, queue_at, table_at, grow_at, cache_at, mvar_at, promise_at, acc_at, object_at, declare, IsAt};

use crate::objects::{add_new, find};
use crate::word::Kind;
use indexmap::IndexMap;
use kc_cache::Cache;
use kc_cells::{Accumulator, MOST_CELLS, Mvar, Promise};
use kc_grow::Grow;
use kc_hash::Hash;
use kc_model::{Loc, MOST_LOCATIONS};
use kc_queue::Queue;
use kc_script_bundle::Object;
use kc_script_lines::{Complaint, Limit, Why, as_name, counted, number_to, positive_to, word_at};
use kc_stack::Stack;
use kc_xt::{MOST_BUCKETS, MOST_ITEMS};
use std::alloc::Global;

/// The number behind the last location.
const END: u32 = MOST_LOCATIONS as u32;

fn fields(kind: Kind) -> usize
    ensures { result ≡ fields kind }
{
    match kind {
        Kind::Loc | Kind::Stack | Kind::Queue | Kind::Grow | Kind::Acc => 2,
        Kind::Table | Kind::Cache => 3,
        Kind::Mvar | Kind::Promise => 1,
    }
}

fn loc_at(at: Loc, value: u32) -> Result<Object, Why>
    requires at { at.0 ≤ MOST_LOCATIONS }
    ensures gives { result ≡ loc_at at.0 value }
    ensures placed { IfOk result (IsAt at.0) }
{
    if at.0 + 1 > END {
        return Err(Why::TooMany(Limit::Locations));
    }
    Ok(Object::Loc { at, value })
}

fn stack_at(at: Loc, cap: u32) -> Result<Object, Why>
    requires at { at.0 ≤ MOST_LOCATIONS }
    requires some { 1 ≤ cap }
    requires most { cap ≤ MOST_ITEMS }
    ensures gives { result ≡ stack_at at.0 cap }
    ensures placed { IfOk result (IsAt at.0) }
{
    if at.0 + 1 + cap > END {
        return Err(Why::TooMany(Limit::Locations));
    }
    Ok(Object::Stack(Stack::layout(at, cap)))
}

fn queue_at(at: Loc, cap: u32) -> Result<Object, Why>
    requires at { at.0 ≤ MOST_LOCATIONS }
    requires some { 1 ≤ cap }
    requires most { cap ≤ MOST_ITEMS }
    ensures gives { result ≡ queue_at at.0 cap }
    ensures placed { IfOk result (IsAt at.0) }
{
    if at.0 + 2 + cap > END {
        return Err(Why::TooMany(Limit::Locations));
    }
    Ok(Object::Queue(Queue::layout(at, cap)))
}

fn table_at(at: Loc, buckets: u32, cap: u32) -> Result<Object, Why>
    requires at { at.0 ≤ MOST_LOCATIONS }
    requires some_buckets { 1 ≤ buckets }
    requires most_buckets { buckets ≤ MOST_BUCKETS }
    requires some { 1 ≤ cap }
    requires most { cap ≤ MOST_ITEMS }
    ensures gives { result ≡ table_at at.0 buckets cap }
    ensures placed { IfOk result (IsAt at.0) }
{
    if at.0 + 2 + buckets + 3 * cap > END {
        return Err(Why::TooMany(Limit::Locations));
    }
    Ok(Object::Hash(Hash::layout(at, buckets, cap)))
}

fn grow_at(at: Loc, cap: u32) -> Result<Object, Why>
    requires at { at.0 ≤ MOST_LOCATIONS }
    requires some { 1 ≤ cap }
    requires most { cap ≤ MOST_ITEMS }
    ensures gives { result ≡ grow_at at.0 cap }
    ensures placed { IfOk result (IsAt at.0) }
{
    if at.0 + 3 + 4 * cap > END {
        return Err(Why::TooMany(Limit::Locations));
    }
    Ok(Object::Grow(Grow::layout(at, cap)))
}

fn cache_at(at: Loc, buckets: u32, cap: u32) -> Result<Object, Why>
    requires at { at.0 ≤ MOST_LOCATIONS }
    requires some_buckets { 1 ≤ buckets }
    requires most_buckets { buckets ≤ MOST_BUCKETS }
    requires some { 1 ≤ cap }
    requires most { cap ≤ MOST_ITEMS }
    ensures gives { result ≡ cache_at at.0 buckets cap }
    ensures placed { IfOk result (IsAt at.0) }
{
    if at.0 + 6 + buckets + 7 * cap > END {
        return Err(Why::TooMany(Limit::Locations));
    }
    Ok(Object::Cache(Cache::layout(at, buckets, cap)))
}

fn mvar_at(at: Loc) -> Result<Object, Why>
    requires at { at.0 ≤ MOST_LOCATIONS }
    ensures gives { result ≡ mvar_at at.0 }
    ensures placed { IfOk result (IsAt at.0) }
{
    if at.0 + 2 > END {
        return Err(Why::TooMany(Limit::Locations));
    }
    Ok(Object::Mvar(Mvar::layout(at)))
}

fn promise_at(at: Loc) -> Result<Object, Why>
    requires at { at.0 ≤ MOST_LOCATIONS }
    ensures gives { result ≡ promise_at at.0 }
    ensures placed { IfOk result (IsAt at.0) }
{
    if at.0 + 2 > END {
        return Err(Why::TooMany(Limit::Locations));
    }
    Ok(Object::Promise(Promise::layout(at)))
}

fn acc_at(at: Loc, cells: u32) -> Result<Object, Why>
    requires at { at.0 ≤ MOST_LOCATIONS }
    requires some { 1 ≤ cells }
    requires most { cells ≤ MOST_CELLS }
    ensures gives { result ≡ acc_at at.0 cells }
    ensures placed { IfOk result (IsAt at.0) }
{
    if at.0 + cells > END {
        return Err(Why::TooMany(Limit::Locations));
    }
    Ok(Object::Acc(Accumulator::layout(at, cells)))
}

// The object that begins at a location, with the numbers behind its name.
#[tactic(auto, unfolding(crate::specs::Declaring::object_at))]
fn object_at(at: Loc, kind: Kind, args: &[&[u8]]) -> Result<Object, Why>
    requires at { at.0 ≤ MOST_LOCATIONS }
    requires counted { length args.now ≡ fields kind }
    ensures gives { result ≡ object_at at.0 kind (map (λ word. word.now) args.now) }
    ensures placed { IfOk result (IsAt at.0) }
{
    match kind {
        Kind::Loc => loc_at(at, number_to(u32::MAX, word_at(args, 1))?),
        Kind::Stack => stack_at(at, positive_to(MOST_ITEMS, word_at(args, 1))?),
        Kind::Queue => queue_at(at, positive_to(MOST_ITEMS, word_at(args, 1))?),
        Kind::Table => {
            let buckets = positive_to(MOST_BUCKETS, word_at(args, 1))?;
            table_at(at, buckets, positive_to(MOST_ITEMS, word_at(args, 2))?)
        }
        Kind::Grow => grow_at(at, positive_to(MOST_ITEMS, word_at(args, 1))?),
        Kind::Cache => {
            let buckets = positive_to(MOST_BUCKETS, word_at(args, 1))?;
            cache_at(at, buckets, positive_to(MOST_ITEMS, word_at(args, 2))?)
        }
        Kind::Mvar => mvar_at(at),
        Kind::Promise => promise_at(at),
        Kind::Acc => acc_at(at, positive_to(MOST_CELLS, word_at(args, 1))?),
    }
}

/// Adds the object that a line declares behind others, at the first location that no object has. Where it fails, the objects
/// are as they were.
#[tactic(auto, unfolding(crate::specs::Declaring::declare, crate::specs::Objects::new_name))]
pub fn declare(
    alloc: Global,
    objects: &mut IndexMap<String, Object>,
    next: u32,
    kind: Kind,
    args: &[&[u8]],
) -> Result<Object, Complaint>
    requires follows { next ≡ next_from 1 (names_of objects.old) }
    requires within { next ≤ MOST_LOCATIONS }
    ensures gives { GivesAsGrammar (λ object. (word_at (map (λ word. word.now) args.now) 0, object)) result (declare (names_of objects.old) kind (map (λ word. word.now) args.now)) }
    ensures added { IfOk result (λ object. names_of objects.new ≡ names_of objects.old ++ (word_at (map (λ word. word.now) args.now) 0, object) ∷ []) }
    ensures placed { IfOk result (IsAt next) }
    ensures err { OnErr result (names_of objects.new ≡ names_of objects.old) }
{
    counted(fields(kind), args)?;
    let Some(name) = as_name(word_at(args, 0)) else {
        return Err(Complaint::Here(Why::BadName));
    };
    match object_at(Loc(next), kind, args) {
        Ok(object) => {
            add_new(alloc, objects, name, object)?;
            Ok(object)
        }
        Err(why) => {
            if find(objects, name).is_some() {
                return Err(Complaint::Here(Why::RepeatedName));
            }
            Err(Complaint::Here(why))
        }
    }
}
