//! How many cells an object has.

ghost use Rattle.std.specs.Prelude.{◌≡◌};
ghost use Rattle.kc_script_bundle.specs.Script.{cells};

use crate::object::Object;

/// How many cells an object has.
pub fn cells(object: Object) -> u32
    ensures { result ≡ cells object }
{
    match object {
        Object::Loc { .. } => 1,
        Object::Stack(stack) => stack.cells(),
        Object::Queue(queue) => queue.cells(),
        Object::Mvar(mvar) => mvar.cells(),
        Object::Promise(promise) => promise.cells(),
        Object::Acc(acc) => acc.cells(),
        Object::Hash(hash) => hash.cells(),
        Object::Grow(grow) => grow.cells(),
        Object::Cache(cache) => cache.cells(),
    }
}
