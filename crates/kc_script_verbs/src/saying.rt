//! Lines that say an operation.

ghost use Rattle.std.specs.Prelude.{◌≡◌, map, length};
ghost use Rattle.kc_script_bundle.specs.Script.{names_of};
ghost use Rattle.kc_script_verbs.specs.Saying.{loc_arity, stack_arity, queue_arity, table_arity, cache_arity, mvar_arity, promise_arity, acc_arity, object_arity, arity, length_of, table_op, op_on, cancel_of, say};

use crate::acts::{
    acc_act, cache_act, grow_act, mvar_act, promise_act, queue_act, stack_act, table_act,
};
use crate::objects::{
    Table, as_acc, as_cache, as_loc, as_mvar, as_promise, as_queue, as_stack, as_table, used,
};
use crate::on_loc::loc_op;
use crate::verb::{
    AccWord, CacheWord, LocWord, MvarWord, ObjectVerb, PromiseWord, QueueWord, StackWord,
    TableWord, Verb,
};
use indexmap::IndexMap;
use kc_cache::{CacheAct, CacheOp};
use kc_cells::{AccOp, MvarOp, PromiseOp};
use kc_grow::{GrowAct, GrowOp};
use kc_hash::{HashAct, HashOp};
use kc_model::Loc;
use kc_queue::{QueueAct, QueueOp};
use kc_script_bundle::{Cancel, MOST_THREADS, Object, Op};
use kc_script_lines::{Why, counted, positive_to, word_at};
use kc_stack::{StackAct, StackOp};

/// The location of live threads.
const LIVE: Loc = Loc(0);

fn loc_arity(word: LocWord) -> usize
    ensures { result ≡ loc_arity word }
{
    match word {
        LocWord::Get | LocWord::Incr | LocWord::Decr => 1,
        LocWord::Set | LocWord::Exchange | LocWord::Swap | LocWord::FetchAdd => 2,
        LocWord::Cas | LocWord::Update | LocWord::Modify | LocWord::Check => 3,
    }
}

fn stack_arity(word: StackWord) -> usize
    ensures { result ≡ stack_arity word }
{
    match word {
        StackWord::Push => 2,
        StackWord::Pop | StackWord::PopWait | StackWord::Top => 1,
    }
}

fn queue_arity(word: QueueWord) -> usize
    ensures { result ≡ queue_arity word }
{
    match word {
        QueueWord::Enq => 2,
        QueueWord::Deq | QueueWord::DeqWait | QueueWord::Front => 1,
    }
}

fn table_arity(word: TableWord) -> usize
    ensures { result ≡ table_arity word }
{
    match word {
        TableWord::Put => 3,
        TableWord::Find | TableWord::Del => 2,
    }
}

fn cache_arity(word: CacheWord) -> usize
    ensures { result ≡ cache_arity word }
{
    match word {
        CacheWord::CPut | CacheWord::CPutWait => 3,
        CacheWord::CGet | CacheWord::CDel => 2,
    }
}

fn mvar_arity(word: MvarWord) -> usize
    ensures { result ≡ mvar_arity word }
{
    match word {
        MvarWord::Put => 2,
        MvarWord::Take | MvarWord::Peek => 1,
    }
}

fn promise_arity(word: PromiseWord) -> usize
    ensures { result ≡ promise_arity word }
{
    match word {
        PromiseWord::Resolve => 2,
        PromiseWord::Await | PromiseWord::IsResolved => 1,
    }
}

fn acc_arity(word: AccWord) -> usize
    ensures { result ≡ acc_arity word }
{
    match word {
        AccWord::Bump => 2,
        AccWord::Total => 1,
    }
}

// How many words stand behind the first of a command on an object.
fn object_arity(verb: ObjectVerb) -> usize
    ensures { result ≡ object_arity verb }
{
    match verb {
        ObjectVerb::OnLoc(word) => loc_arity(word),
        ObjectVerb::OnStack(word) => stack_arity(word),
        ObjectVerb::OnQueue(word) => queue_arity(word),
        ObjectVerb::OnTable(word) => table_arity(word),
        ObjectVerb::OnCache(word) => cache_arity(word),
        ObjectVerb::OnMvar(word) => mvar_arity(word),
        ObjectVerb::OnPromise(word) => promise_arity(word),
        ObjectVerb::OnAcc(word) => acc_arity(word),
        ObjectVerb::Len => 1,
    }
}

// How many words stand behind the first.
fn arity(verb: Verb) -> usize
    ensures { result ≡ arity verb }
{
    match verb {
        Verb::On(verb) => object_arity(verb),
        Verb::Cancel => 1,
    }
}

fn length_of(object: Object) -> Result<Op, Why>
    ensures { result ≡ length_of object }
{
    match object {
        Object::Stack(stack) => Ok(Op::Stack(StackOp {
            stack,
            act: StackAct::Len,
        })),
        Object::Queue(queue) => Ok(Op::Queue(QueueOp {
            queue,
            act: QueueAct::Len,
        })),
        Object::Hash(hash) => Ok(Op::Hash(HashOp {
            hash,
            act: HashAct::Len,
        })),
        Object::Grow(grow) => Ok(Op::Grow(GrowOp {
            grow,
            act: GrowAct::Len,
        })),
        Object::Cache(cache) => Ok(Op::Cache(CacheOp {
            cache,
            act: CacheAct::Len,
        })),
        _ => Err(Why::WrongKind),
    }
}

// What is done to a table of either kind.
fn table_op(table: Table, act: HashAct) -> Op
    ensures { result ≡ table_op table act }
{
    match table {
        Table::Hash(hash) => Op::Hash(HashOp { hash, act }),
        Table::Grow(grow) => Op::Grow(GrowOp {
            grow,
            act: grow_act(act),
        }),
    }
}

// What a command does to the object of its first name.
#[tactic(auto, unfolding(crate::specs::Saying::op_on))]
fn op_on(
    thread: u32,
    objects: &IndexMap<String, Object>,
    verb: ObjectVerb,
    object: Object,
    args: &[&[u8]],
) -> Result<Op, Why>
    requires { length args.now ≡ object_arity verb }
    ensures { result ≡ op_on thread (names_of objects.now) verb object (map (λ word. word.now) args.now) }
{
    match verb {
        ObjectVerb::OnLoc(word) => {
            let at = as_loc(object)?;
            Ok(Op::Loc(loc_op(objects, word, at, args)?))
        }
        ObjectVerb::OnStack(word) => {
            let stack = as_stack(object)?;
            let act = stack_act(word, args)?;
            Ok(Op::Stack(StackOp { stack, act }))
        }
        ObjectVerb::OnQueue(word) => {
            let queue = as_queue(object)?;
            let act = queue_act(word, args)?;
            Ok(Op::Queue(QueueOp { queue, act }))
        }
        ObjectVerb::OnTable(word) => {
            let table = as_table(object)?;
            let act = table_act(word, args)?;
            Ok(table_op(table, act))
        }
        ObjectVerb::OnCache(word) => {
            let cache = as_cache(object)?;
            let act = cache_act(word, args)?;
            Ok(Op::Cache(CacheOp { cache, act }))
        }
        ObjectVerb::OnMvar(word) => {
            let mvar = as_mvar(object)?;
            let act = mvar_act(word, args)?;
            Ok(Op::Mvar(MvarOp { mvar, act }))
        }
        ObjectVerb::OnPromise(word) => {
            let promise = as_promise(object)?;
            let act = promise_act(word, args)?;
            Ok(Op::Promise(PromiseOp { promise, act }))
        }
        ObjectVerb::OnAcc(word) => {
            let acc = as_acc(object)?;
            let act = acc_act(thread, word, args)?;
            Ok(Op::Acc(AccOp { acc, act }))
        }
        ObjectVerb::Len => length_of(object),
    }
}

// The cancel of the thread whose number the word is.
fn cancel_of(word: &[u8]) -> Result<Op, Why>
    ensures { result ≡ cancel_of word.now }
{
    let thread = positive_to(MOST_THREADS as u32, word)?;
    Ok(Op::Cancel(Cancel { live: LIVE, thread }))
}

/// The operation that a line says in a thread. Threads are numbered from 0 here.
#[tactic(auto, unfolding(crate::specs::Saying::say))]
pub fn say(
    thread: u32,
    objects: &IndexMap<String, Object>,
    verb: Verb,
    args: &[&[u8]],
) -> Result<Op, Why>
    ensures { result ≡ say thread (names_of objects.now) verb (map (λ word. word.now) args.now) }
{
    counted(arity(verb), args)?;
    let first = word_at(args, 0);
    match verb {
        Verb::On(verb) => op_on(thread, objects, verb, used(objects, first)?, args),
        Verb::Cancel => cancel_of(first),
    }
}
