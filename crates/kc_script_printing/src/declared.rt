//! The lines that declare objects.

ghost use Rattle.std.specs.Prelude.{◌≡◌, ◌++◌, ◌∷◌, [], drop};
ghost use Rattle.kc_model.specs.Pen.{PenPuts};
ghost use Rattle.kc_script_bundle.specs.Script.{names_of};
ghost use Rattle.kc_script_verbs.specs.Canonical.{declaring};
ghost use Rattle.kc_script.specs.Canonical.{declaration_lines, canonical_line, line_text, text_of_lines};

use crate::shapes::{put_named, put_number, put_numbers};
use indexmap::IndexMap;
use kc_model::{Pen, Sink};
use kc_script_bundle::Object;

// The line that declares an object, without its end.
fn put_declaration<K: Sink>(pen: &mut Pen<K>, name: &[u8], object: Object)
    ensures { PenPuts K.written K.faults K.write_gives pen.old pen.new (line_text (canonical_line [] (declaring name.now object))) }
{
    match object {
        Object::Loc { value, .. } => put_number(pen, b"loc", name, value),
        Object::Stack(stack) => put_number(pen, b"stack", name, stack.capacity()),
        Object::Queue(queue) => put_number(pen, b"queue", name, queue.capacity()),
        Object::Mvar(_) => put_named(pen, b"mvar", name),
        Object::Promise(_) => put_named(pen, b"promise", name),
        Object::Acc(acc) => put_number(pen, b"acc", name, acc.cells()),
        Object::Hash(hash) => put_numbers(pen, b"table", name, hash.buckets(), hash.capacity()),
        Object::Grow(grow) => put_number(pen, b"grow", name, grow.capacity()),
        Object::Cache(cache) => put_numbers(pen, b"cache", name, cache.buckets(), cache.capacity()),
    }
}

/// The lines that declare the objects.
pub fn put_declarations<K: Sink>(pen: &mut Pen<K>, objects: &IndexMap<String, Object>)
    ensures { PenPuts K.written K.faults K.write_gives pen.old pen.new (text_of_lines (declaration_lines (names_of objects.now))) }
{
    for i in 0..objects.len() {
        let Some((name, object)) = objects.get_index(i) else {
            unreachable!("each index has an entry");
        };
        put_declaration(pen, name.as_bytes(), *object);
        pen.put(b"\n");
    }
}
