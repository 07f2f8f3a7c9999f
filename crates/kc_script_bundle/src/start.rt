//! The values that a bundle opens with.

ghost use Rattle.std.specs.Prelude.{◌≡◌, ◌≤◌, ◌<◌, ◌++◌, length, IfOk, OnOk};
ghost use Rattle.kc_script_bundle.specs.Script.{script_of, cells, LiesInOrder};
ghost use Rattle.kc_script_bundle.specs.State.{opening_value, opening_cells, opening_values};

use crate::bundle::{Bundle, MOST_THREADS};
use crate::object::Object;
use crate::place::cells;
use kc_model::NoMemory;
use std::alloc::Global;

// What a cell of an object opens with.
fn opening_value(object: Object, index: u32) -> u32
    requires { index < cells object }
    ensures { result ≡ opening_value object index }
{
    match object {
        Object::Loc { value, .. } => value,
        Object::Stack(stack) => stack.opening(index),
        Object::Queue(queue) => queue.opening(index),
        Object::Mvar(mvar) => mvar.opening(index),
        Object::Promise(promise) => promise.opening(index),
        Object::Acc(acc) => acc.opening(index),
        Object::Hash(hash) => hash.opening(index),
        Object::Grow(grow) => grow.opening(index),
        Object::Cache(cache) => cache.opening(index),
    }
}

// Adds the values with which an object's cells open.
fn push_cells(values: &mut Vec<u32>, object: Object) -> Result<(), NoMemory>
    ensures { OnOk result (values.new.items ≡ values.old.items ++ opening_cells object) }
{
    for i in 0..cells(object) {
        values.push(opening_value(object, i))?;
    }
    Ok(())
}

/// The values with which a bundle's locations open. Location 0 has the number of threads.
pub fn opening(alloc: Global, bundle: &Bundle) -> Result<Vec<u32>, NoMemory>
    requires few { length (script_of bundle.now).threads ≤ MOST_THREADS }
    requires lies { LiesInOrder (script_of bundle.now) }
    ensures { IfOk result (λ values. values.items ≡ opening_values (script_of bundle.now)) }
{
    let mut values = Vec::new(alloc);
    values.push(bundle.threads.len() as u32)?;
    for i in 0..bundle.objects.len() {
        let Some((_, object)) = bundle.objects.get_index(i) else {
            unreachable!("each index has an entry");
        };
        push_cells(&mut values, *object)?;
    }
    Ok(values)
}
