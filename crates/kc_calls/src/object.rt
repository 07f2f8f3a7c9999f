//! Where a structure lies, as C says it.

ghost use Rattle.std.specs.Prelude.{◌≡◌, ◌<◌};
ghost use Rattle.kc_calls.specs.Structures.{structure_of, cells_of, OpensStructure};
ghost use Rattle.kc_script_bundle.specs.Script.{cells as object_cells};
ghost use Rattle.kc_script_bundle.specs.State.{opening_value};

use crate::kinds::{ACCUMULATOR, CACHE, GROW, LOCATION, MVAR, PROMISE, QUEUE, STACK, TABLE};
use crate::layout::{
    accumulator_at, cache_at, grow_at, location_at, mvar_at, promise_at, queue_at, stack_at,
    table_at,
};
use kc_script_bundle::{Object, cells as object_cells};

/// A structure: its kind, the location of its first cell, and its sizes. A field that its kind doesn't use is not
/// looked at.
#[repr(C)]
#[derive(Clone, Copy)]
pub struct KcasObject {
    /// 1 to 9: see `kinds`.
    pub kind: u32,
    /// All its cells are below 65,536.
    pub base: u32,
    /// For how many items or keys it has room, 1 to 4,096; of an accumulator how many cells it has, 1 to 32.
    pub capacity: u32,
    /// How many buckets a table or a cache has, 1 to 1,024.
    pub buckets: u32,
}

impl KcasObject {
    // The structure that it says, if it is one.
    #[inline(always)]
    #[tactic(auto, unfolding(crate::specs::Structures::structure_of))]
    pub(crate) fn structure(self) -> Option<Object>
        ensures { result ≡ structure_of self }
    {
        match self.kind {
            LOCATION => location_at(self.base),
            STACK => stack_at(self.base, self.capacity),
            QUEUE => queue_at(self.base, self.capacity),
            TABLE => table_at(self.base, self.buckets, self.capacity),
            GROW => grow_at(self.base, self.capacity),
            CACHE => cache_at(self.base, self.buckets, self.capacity),
            MVAR => mvar_at(self.base),
            PROMISE => promise_at(self.base),
            ACCUMULATOR => accumulator_at(self.base, self.capacity),
            _ => None,
        }
    }
}

/// How many cells a structure has; 0 where there is no such structure.
pub fn cells(object: KcasObject) -> u32
    ensures { result ≡ cells_of (structure_of object) }
{
    match object.structure() {
        Some(structure) => object_cells(structure),
        None => 0,
    }
}

/// Writes what the cells of a structure open with to the first of these values, where there is such a structure and
/// room for its cells. Else it answers false, and the values stay as they were.
pub fn opening(object: KcasObject, values: &mut [u32]) -> bool
    ensures { OpensStructure (structure_of object) values.old result values.new }
{
    let Some(structure) = object.structure() else {
        return false;
    };
    if values.len() < object_cells(structure) as usize {
        return false;
    }
    for i in 0..object_cells(structure) {
        values[i as usize] = opening_value(structure, i);
    }
    true
}

// What a cell opens with.
fn opening_value(structure: Object, index: u32) -> u32
    requires { index < object_cells structure }
    ensures { result ≡ opening_value structure index }
{
    match structure {
        Object::Loc { value, .. } => value,
        Object::Stack(stack) => stack.opening(index),
        Object::Queue(queue) => queue.opening(index),
        Object::Mvar(mvar) => mvar.opening(index),
        Object::Promise(promise) => promise.opening(index),
        Object::Acc(acc) => acc.opening(index),
        Object::Hash(hash) => hash.opening(index),
        Object::Grow(grow) => grow.opening(index),
        Object::Cache(cache) => cache.opening(index),
    }
}
