//! The names of objects, by where they lie.

ghost use Rattle.std.specs.Prelude.{◌≡◌};
ghost use Rattle.kc_script_bundle.specs.Script.{names_of, base, LieFrom, AreSized};
ghost use Rattle.kc_script.specs.Canonical.{name_at};

use indexmap::IndexMap;
use kc_script_bundle::Object;

/// The first location of an object.
pub fn base_of(object: Object) -> u32
    ensures { result ≡ base object }
{
    match object {
        Object::Loc { at, .. } => at.0,
        Object::Stack(stack) => stack.base().0,
        Object::Queue(queue) => queue.base().0,
        Object::Mvar(mvar) => mvar.base().0,
        Object::Promise(promise) => promise.base().0,
        Object::Acc(acc) => acc.base().0,
        Object::Hash(hash) => hash.base().0,
        Object::Grow(grow) => grow.base().0,
        Object::Cache(cache) => cache.base().0,
    }
}

/// The name of the object that begins at a location, found by halves: the objects lie in order. Where none begins there, it is
/// empty.
pub fn name_at<'a>(objects: &'a IndexMap<String, Object>, at: u32) -> &'a [u8]
    requires lie { LieFrom 1 (names_of objects.now) }
    requires sized { AreSized (names_of objects.now) }
    ensures { result.now ≡ name_at (names_of objects.now) at }
{
    let mut low = 0;
    let mut high = objects.len();
    while low < high {
        let middle = low + (high - low) / 2;
        let Some((name, object)) = objects.get_index(middle) else {
            unreachable!("each index has an entry");
        };
        let base = base_of(*object);
        if base == at {
            return name.as_bytes();
        }
        if base < at {
            low = middle + 1;
        } else {
            high = middle;
        }
    }
    b""
}
