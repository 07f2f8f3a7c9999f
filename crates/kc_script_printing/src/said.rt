//! The lines that say operations, without their ends.

ghost use Rattle.std.specs.Prelude.{◌≡◌, ◌++◌, ◌∷◌, [], codes};
ghost use Rattle.kc_model.specs.Pen.{PenPuts};
ghost use Rattle.kc_script_bundle.specs.Script.{names_of, LieFrom, AreSized};
ghost use Rattle.kc_script_verbs.specs.Canonical.{fun_words, rel_word, loc_words, stack_words, queue_words, table_words, hash_act, mvar_words, promise_words, acc_words, cache_words};
ghost use Rattle.kc_script.specs.Canonical.{canonical_line, canonical_op_line, line_text};

use crate::naming::{base_of, name_at};
use crate::shapes::{put_choice, put_named, put_number, put_numbers, put_numeral};
use indexmap::IndexMap;
use kc_cache::{CacheAct, CacheOp};
use kc_cells::{AccAct, AccOp, MvarAct, MvarOp, PromiseAct, PromiseOp};
use kc_grow::GrowAct;
use kc_hash::HashAct;
use kc_loc::{Fun, LocOp, Rel};
use kc_model::{Pen, Sink};
use kc_queue::{QueueAct, QueueOp};
use kc_script_bundle::{Object, Op};
use kc_stack::{StackAct, StackOp};

fn rel_word(rel: Rel) -> &'static [u8]
    ensures { result.now ≡ rel_word rel }
{
    match rel {
        Rel::Eq => b"eq",
        Rel::Ne => b"ne",
        Rel::Lt => b"lt",
        Rel::Le => b"le",
        Rel::Gt => b"gt",
        Rel::Ge => b"ge",
    }
}

// A location that a function changes.
fn put_fun<K: Sink>(pen: &mut Pen<K>, word: &[u8], name: &[u8], fun: Fun)
    ensures { PenPuts K.written K.faults K.write_gives pen.old pen.new (word.now ++ 32 ∷ (name.now ++ 32 ∷ line_text (canonical_line [] (fun_words fun)))) }
{
    match fun {
        Fun::Add(number) => put_choice(pen, word, name, b"add", number),
        Fun::Max(number) => put_choice(pen, word, name, b"max", number),
        Fun::Min(number) => put_choice(pen, word, name, b"min", number),
        Fun::And(number) => put_choice(pen, word, name, b"and", number),
        Fun::Or(number) => put_choice(pen, word, name, b"or", number),
        Fun::Xor(number) => put_choice(pen, word, name, b"xor", number),
    }
}

fn put_loc<K: Sink>(pen: &mut Pen<K>, objects: &IndexMap<String, Object>, operation: LocOp)
    requires lie { LieFrom 1 (names_of objects.now) }
    requires sized { AreSized (names_of objects.now) }
    ensures { PenPuts K.written K.faults K.write_gives pen.old pen.new (line_text (canonical_line (names_of objects.now) (loc_words operation))) }
{
    match operation {
        LocOp::Get(loc) => put_named(pen, b"get", name_at(objects, loc.0)),
        LocOp::Set(loc, value) => put_number(pen, b"set", name_at(objects, loc.0), value),
        LocOp::Exchange(loc, value) => put_number(pen, b"xchg", name_at(objects, loc.0), value),
        LocOp::Swap(a, b) => put_swap(pen, name_at(objects, a.0), name_at(objects, b.0)),
        LocOp::Cas(loc, before, after) => {
            put_numbers(pen, b"cas", name_at(objects, loc.0), before, after)
        }
        LocOp::FetchAdd(loc, value) => put_number(pen, b"add", name_at(objects, loc.0), value),
        LocOp::Incr(loc) => put_named(pen, b"incr", name_at(objects, loc.0)),
        LocOp::Decr(loc) => put_named(pen, b"decr", name_at(objects, loc.0)),
        LocOp::Update(loc, fun) => put_fun(pen, b"update", name_at(objects, loc.0), fun),
        LocOp::Modify(loc, fun) => put_fun(pen, b"modify", name_at(objects, loc.0), fun),
        LocOp::Check(loc, rel, value) => {
            put_choice(pen, b"check", name_at(objects, loc.0), rel_word(rel), value)
        }
    }
}

fn put_swap<K: Sink>(pen: &mut Pen<K>, a: &[u8], b: &[u8])
    ensures { PenPuts K.written K.faults K.write_gives pen.old pen.new (codes "swap " ++ (a.now ++ 32 ∷ b.now)) }
{
    pen.put(b"swap ");
    put_named(pen, a, b);
}

fn put_stack<K: Sink>(pen: &mut Pen<K>, objects: &IndexMap<String, Object>, operation: StackOp)
    requires lie { LieFrom 1 (names_of objects.now) }
    requires sized { AreSized (names_of objects.now) }
    ensures { PenPuts K.written K.faults K.write_gives pen.old pen.new (line_text (canonical_line (names_of objects.now) (stack_words operation.stack operation.act))) }
{
    let name = name_at(objects, operation.stack.base().0);
    match operation.act {
        StackAct::Push(value) => put_number(pen, b"push", name, value),
        StackAct::Pop => put_named(pen, b"pop", name),
        StackAct::PopWait => put_named(pen, b"popw", name),
        StackAct::Top => put_named(pen, b"top", name),
        StackAct::Len => put_named(pen, b"len", name),
    }
}

fn put_queue<K: Sink>(pen: &mut Pen<K>, objects: &IndexMap<String, Object>, operation: QueueOp)
    requires lie { LieFrom 1 (names_of objects.now) }
    requires sized { AreSized (names_of objects.now) }
    ensures { PenPuts K.written K.faults K.write_gives pen.old pen.new (line_text (canonical_line (names_of objects.now) (queue_words operation.queue operation.act))) }
{
    let name = name_at(objects, operation.queue.base().0);
    match operation.act {
        QueueAct::Enq(value) => put_number(pen, b"enq", name, value),
        QueueAct::Deq => put_named(pen, b"deq", name),
        QueueAct::DeqWait => put_named(pen, b"deqw", name),
        QueueAct::Front => put_named(pen, b"front", name),
        QueueAct::Len => put_named(pen, b"len", name),
    }
}

// The same on a table that doesn't grow.
fn hash_act(act: GrowAct) -> HashAct
    ensures { result ≡ hash_act act }
{
    match act {
        GrowAct::Put(key, value) => HashAct::Put(key, value),
        GrowAct::Find(key) => HashAct::Find(key),
        GrowAct::Del(key) => HashAct::Del(key),
        GrowAct::Len => HashAct::Len,
    }
}

// Of a table of either kind.
fn put_table<K: Sink>(
    pen: &mut Pen<K>,
    objects: &IndexMap<String, Object>,
    table: Object,
    act: HashAct,
)
    requires lie { LieFrom 1 (names_of objects.now) }
    requires sized { AreSized (names_of objects.now) }
    ensures { PenPuts K.written K.faults K.write_gives pen.old pen.new (line_text (canonical_line (names_of objects.now) (table_words table act))) }
{
    let name = name_at(objects, base_of(table));
    match act {
        HashAct::Put(key, value) => put_numbers(pen, b"put", name, key, value),
        HashAct::Find(key) => put_number(pen, b"find", name, key),
        HashAct::Del(key) => put_number(pen, b"del", name, key),
        HashAct::Len => put_named(pen, b"len", name),
    }
}

fn put_mvar<K: Sink>(pen: &mut Pen<K>, objects: &IndexMap<String, Object>, operation: MvarOp)
    requires lie { LieFrom 1 (names_of objects.now) }
    requires sized { AreSized (names_of objects.now) }
    ensures { PenPuts K.written K.faults K.write_gives pen.old pen.new (line_text (canonical_line (names_of objects.now) (mvar_words operation.mvar operation.act))) }
{
    let name = name_at(objects, operation.mvar.base().0);
    match operation.act {
        MvarAct::Put(value) => put_number(pen, b"mput", name, value),
        MvarAct::Take => put_named(pen, b"mtake", name),
        MvarAct::Peek => put_named(pen, b"mpeek", name),
    }
}

fn put_promise<K: Sink>(pen: &mut Pen<K>, objects: &IndexMap<String, Object>, operation: PromiseOp)
    requires lie { LieFrom 1 (names_of objects.now) }
    requires sized { AreSized (names_of objects.now) }
    ensures { PenPuts K.written K.faults K.write_gives pen.old pen.new (line_text (canonical_line (names_of objects.now) (promise_words operation.promise operation.act))) }
{
    let name = name_at(objects, operation.promise.base().0);
    match operation.act {
        PromiseAct::Resolve(value) => put_number(pen, b"resolve", name, value),
        PromiseAct::Await => put_named(pen, b"await", name),
        PromiseAct::IsResolved => put_named(pen, b"resolved", name),
    }
}

fn put_acc<K: Sink>(pen: &mut Pen<K>, objects: &IndexMap<String, Object>, operation: AccOp)
    requires lie { LieFrom 1 (names_of objects.now) }
    requires sized { AreSized (names_of objects.now) }
    ensures { PenPuts K.written K.faults K.write_gives pen.old pen.new (line_text (canonical_line (names_of objects.now) (acc_words operation.acc operation.act))) }
{
    let name = name_at(objects, operation.acc.base().0);
    match operation.act {
        AccAct::Bump(_, value) => put_number(pen, b"bump", name, value),
        AccAct::Total => put_named(pen, b"total", name),
    }
}

fn put_cache<K: Sink>(pen: &mut Pen<K>, objects: &IndexMap<String, Object>, operation: CacheOp)
    requires lie { LieFrom 1 (names_of objects.now) }
    requires sized { AreSized (names_of objects.now) }
    ensures { PenPuts K.written K.faults K.write_gives pen.old pen.new (line_text (canonical_line (names_of objects.now) (cache_words operation.cache operation.act))) }
{
    let name = name_at(objects, operation.cache.base().0);
    match operation.act {
        CacheAct::CPut(key, value) => put_numbers(pen, b"cput", name, key, value),
        CacheAct::CPutWait(key, value) => put_numbers(pen, b"cputw", name, key, value),
        CacheAct::CGet(key) => put_number(pen, b"cget", name, key),
        CacheAct::CDel(key) => put_number(pen, b"cdel", name, key),
        CacheAct::Len => put_named(pen, b"len", name),
    }
}

/// The line that says an operation.
pub fn put_op<K: Sink>(pen: &mut Pen<K>, objects: &IndexMap<String, Object>, operation: Op)
    requires lie { LieFrom 1 (names_of objects.now) }
    requires sized { AreSized (names_of objects.now) }
    ensures { PenPuts K.written K.faults K.write_gives pen.old pen.new (line_text (canonical_op_line (names_of objects.now) operation)) }
{
    match operation {
        Op::Loc(operation) => put_loc(pen, objects, operation),
        Op::Stack(operation) => put_stack(pen, objects, operation),
        Op::Queue(operation) => put_queue(pen, objects, operation),
        Op::Mvar(operation) => put_mvar(pen, objects, operation),
        Op::Promise(operation) => put_promise(pen, objects, operation),
        Op::Acc(operation) => put_acc(pen, objects, operation),
        Op::Hash(operation) => {
            put_table(pen, objects, Object::Hash(operation.hash), operation.act)
        }
        Op::Grow(operation) => {
            let table = Object::Grow(operation.grow);
            put_table(pen, objects, table, hash_act(operation.act))
        }
        Op::Cache(operation) => put_cache(pen, objects, operation),
        Op::Cancel(operation) => put_numeral(pen, b"cancel", operation.thread),
    }
}
