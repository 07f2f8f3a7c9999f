//! The lines that show what a bundle's objects hold. Cells that stand for nothing are shown too, as what their numbers
//! count as.

ghost use Rattle.std.specs.Prelude.{◌≤◌, ◌+◌, length};
ghost use Rattle.kc_model.specs.Store.{store_of};
ghost use Rattle.kc_model.specs.Pen.{PenPuts, Prints};
ghost use Rattle.kc_xt.specs.Meaning.{values};
ghost use Rattle.kc_script_bundle.specs.Script.{names_of, base, cells, CellsWithin};
ghost use Rattle.kc_script_bundle.specs.State.{shown, content_text, state_line, state_text};

use crate::bundle::Bundle;
use crate::content;
use crate::object::Object;
use kc_model::{Failed, Pen, PlainStore, Sink};

fn put_content<K: Sink>(pen: &mut Pen<K>, store: &PlainStore, object: Object)
    requires { base object + cells object ≤ length store.now }
    ensures { PenPuts K.written K.faults K.write_gives pen.old pen.new (content_text (shown object (values (store_of store.now)))) }
{
    match object {
        Object::Loc { at, .. } => content::put_location(pen, store, at),
        Object::Stack(stack) => content::put_stack(pen, store, stack),
        Object::Queue(queue) => content::put_queue(pen, store, queue),
        Object::Mvar(mvar) => content::put_place(pen, mvar.value(store)),
        Object::Promise(promise) => content::put_place(pen, promise.value(store)),
        Object::Acc(acc) => content::put_number(pen, acc.total(store)),
        Object::Hash(hash) => content::put_hash(pen, store, hash),
        Object::Grow(grow) => content::put_grow(pen, store, grow),
        Object::Cache(cache) => content::put_cache(pen, store, cache),
    }
}

fn put_line<K: Sink>(pen: &mut Pen<K>, store: &PlainStore, name: &str, object: Object)
    requires { base object + cells object ≤ length store.now }
    ensures { PenPuts K.written K.faults K.write_gives pen.old pen.new (state_line name.now (shown object (values (store_of store.now)))) }
{
    pen.put(name.as_bytes());
    put_content(pen, store, object);
    pen.put(b"\n");
}

/// Puts a line for each object, with what it holds in the store.
pub fn put_state<K: Sink>(pen: &mut Pen<K>, bundle: &Bundle, store: &PlainStore)
    requires { CellsWithin (length store.now) (names_of bundle.now.objects) }
    ensures { PenPuts K.written K.faults K.write_gives pen.old pen.new (state_text (names_of bundle.now.objects) (values (store_of store.now))) }
{
    for i in 0..bundle.objects.len() {
        let Some((name, object)) = bundle.objects.get_index(i) else {
            unreachable!("each index has an entry");
        };
        put_line(pen, store, name.as_str(), *object);
    }
}

/// Writes a line for each object, with what it holds in the store. After a failed write no further one is made.
pub fn write_state<K: Sink>(bundle: &Bundle, store: &PlainStore, sink: &mut K) -> Result<(), Failed>
    requires { CellsWithin (length store.now) (names_of bundle.now.objects) }
    ensures { Prints K.written K.faults K.write_gives sink.old sink.new result (state_text (names_of bundle.now.objects) (values (store_of store.now))) }
{
    let mut pen = Pen::new(sink);
    put_state(&mut pen, bundle, store);
    pen.end()
}

/// Writes the line of one object, with what it holds in the store. After a failed write no further one is made.
pub fn write_object<K: Sink>(
    store: &PlainStore,
    name: &str,
    object: Object,
    sink: &mut K,
) -> Result<(), Failed>
    requires { base object + cells object ≤ length store.now }
    ensures { Prints K.written K.faults K.write_gives sink.old sink.new result (state_line name.now (shown object (values (store_of store.now)))) }
{
    let mut pen = Pen::new(sink);
    put_line(&mut pen, store, name, object);
    pen.end()
}
