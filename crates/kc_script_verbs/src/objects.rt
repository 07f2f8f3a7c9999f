//! Objects by their names.

ghost use Rattle.std.specs.Prelude.{◌≡◌, ◌++◌, ◌∷◌, [], None, OnOk, OnErr, is_some, not};
ghost use Rattle.kc_script_bundle.specs.Script.{names_of};
ghost use Rattle.kc_script_lines.specs.Gives.{GivesAsGrammar};
ghost use Rattle.kc_script_lines.specs.Tests.{wants};
ghost use Rattle.kc_script_lines.specs.declared.fault.Why.TheVariants.{RepeatedName};
ghost use Rattle.kc_script_verbs.specs.Objects.{object_of, used, as_loc, as_stack, as_queue, as_table, as_cache, as_mvar, as_promise, as_acc};

use indexmap::IndexMap;
use indexmap::map::Entry;
use kc_cache::Cache;
use kc_cells::{Accumulator, Mvar, Promise};
use kc_grow::Grow;
use kc_hash::Hash;
use kc_model::Loc;
use kc_queue::Queue;
use kc_script_bundle::Object;
use kc_script_lines::{Complaint, Why, as_name};
use kc_stack::Stack;
use std::alloc::{AllocError, Global};

/// A table of either kind.
#[derive(Clone, Copy, Debug, PartialEq, Eq)]
pub enum Table {
    /// One of so many buckets.
    Hash(Hash),
    /// One whose buckets split.
    Grow(Grow),
}

/// The object of this name.
pub fn find(objects: &IndexMap<String, Object>, name: &str) -> Option<Object>
    ensures { result ≡ object_of (names_of objects.now) name.now }
{
    objects.get(name).copied()
}

/// Adds an object with a new name at the end.
pub fn add(
    alloc: Global,
    objects: &mut IndexMap<String, Object>,
    name: &str,
    object: Object,
) -> Result<(), AllocError>
    requires { object_of (names_of objects.old) name.now ≡ None }
    ensures ok { OnOk result (names_of objects.new ≡ names_of objects.old ++ (name.now, object) ∷ []) }
    ensures err { OnErr result (names_of objects.new ≡ names_of objects.old) }
{
    objects.insert(String::from_str(alloc, name)?, object)?;
    Ok(())
}

/// Adds an object at the end, unless an object has its name. Where it fails, the objects are as they were.
pub(crate) fn add_new(
    alloc: Global,
    objects: &mut IndexMap<String, Object>,
    name: &str,
    object: Object,
) -> Result<(), Complaint>
    ensures new { GivesAsGrammar (λ _. tt) result (wants (not (is_some (object_of (names_of objects.old) name.now))) RepeatedName) }
    ensures added { OnOk result (names_of objects.new ≡ names_of objects.old ++ (name.now, object) ∷ []) }
    ensures err { OnErr result (names_of objects.new ≡ names_of objects.old) }
{
    match objects.entry(String::from_str(alloc, name)?)? {
        Entry::Vacant(place) => {
            let _placed = place.insert_entry(object);
            Ok(())
        }
        Entry::Occupied(_) => Err(Complaint::Here(Why::RepeatedName)),
    }
}

/// The object that the word names.
#[tactic(auto, unfolding(crate::specs::Objects::used))]
pub fn used(objects: &IndexMap<String, Object>, word: &[u8]) -> Result<Object, Why>
    ensures { result ≡ used (names_of objects.now) word.now }
{
    let Some(name) = as_name(word) else {
        return Err(Why::UnknownName);
    };
    match find(objects, name) {
        Some(object) => Ok(object),
        None => Err(Why::UnknownName),
    }
}

pub fn as_loc(object: Object) -> Result<Loc, Why>
    ensures { result ≡ as_loc object }
{
    match object {
        Object::Loc { at, .. } => Ok(at),
        _ => Err(Why::WrongKind),
    }
}

pub fn as_stack(object: Object) -> Result<Stack, Why>
    ensures { result ≡ as_stack object }
{
    match object {
        Object::Stack(stack) => Ok(stack),
        _ => Err(Why::WrongKind),
    }
}

pub fn as_queue(object: Object) -> Result<Queue, Why>
    ensures { result ≡ as_queue object }
{
    match object {
        Object::Queue(queue) => Ok(queue),
        _ => Err(Why::WrongKind),
    }
}

pub fn as_table(object: Object) -> Result<Table, Why>
    ensures { result ≡ as_table object }
{
    match object {
        Object::Hash(hash) => Ok(Table::Hash(hash)),
        Object::Grow(grow) => Ok(Table::Grow(grow)),
        _ => Err(Why::WrongKind),
    }
}

pub fn as_cache(object: Object) -> Result<Cache, Why>
    ensures { result ≡ as_cache object }
{
    match object {
        Object::Cache(cache) => Ok(cache),
        _ => Err(Why::WrongKind),
    }
}

pub fn as_mvar(object: Object) -> Result<Mvar, Why>
    ensures { result ≡ as_mvar object }
{
    match object {
        Object::Mvar(mvar) => Ok(mvar),
        _ => Err(Why::WrongKind),
    }
}

pub fn as_promise(object: Object) -> Result<Promise, Why>
    ensures { result ≡ as_promise object }
{
    match object {
        Object::Promise(promise) => Ok(promise),
        _ => Err(Why::WrongKind),
    }
}

pub fn as_acc(object: Object) -> Result<Accumulator, Why>
    ensures { result ≡ as_acc object }
{
    match object {
        Object::Acc(acc) => Ok(acc),
        _ => Err(Why::WrongKind),
    }
}
