//! What a command does to an object, by the words behind the object's name.

ghost use Rattle.std.specs.Prelude.{◌≡◌, map, length};
ghost use Rattle.kc_script_verbs.specs.Saying.{stack_arity, queue_arity, table_arity, cache_arity, mvar_arity, promise_arity, acc_arity, stack_act, queue_act, table_act, grow_act, cache_act, mvar_act, promise_act, acc_act};

use crate::named::value_at;
use crate::verb::{AccWord, CacheWord, MvarWord, PromiseWord, QueueWord, StackWord, TableWord};
use kc_cache::CacheAct;
use kc_cells::{AccAct, MvarAct, PromiseAct};
use kc_grow::GrowAct;
use kc_hash::HashAct;
use kc_queue::QueueAct;
use kc_script_lines::Why;
use kc_stack::StackAct;

#[tactic(auto, unfolding(crate::specs::Saying::stack_act))]
pub fn stack_act(word: StackWord, args: &[&[u8]]) -> Result<StackAct, Why>
    requires { length args.now ≡ stack_arity word }
    ensures { result ≡ stack_act word (map (λ word. word.now) args.now) }
{
    match word {
        StackWord::Push => Ok(StackAct::Push(value_at(args, 1)?)),
        StackWord::Pop => Ok(StackAct::Pop),
        StackWord::PopWait => Ok(StackAct::PopWait),
        StackWord::Top => Ok(StackAct::Top),
    }
}

#[tactic(auto, unfolding(crate::specs::Saying::queue_act))]
pub fn queue_act(word: QueueWord, args: &[&[u8]]) -> Result<QueueAct, Why>
    requires { length args.now ≡ queue_arity word }
    ensures { result ≡ queue_act word (map (λ word. word.now) args.now) }
{
    match word {
        QueueWord::Enq => Ok(QueueAct::Enq(value_at(args, 1)?)),
        QueueWord::Deq => Ok(QueueAct::Deq),
        QueueWord::DeqWait => Ok(QueueAct::DeqWait),
        QueueWord::Front => Ok(QueueAct::Front),
    }
}

#[tactic(auto, unfolding(crate::specs::Saying::table_act))]
pub fn table_act(word: TableWord, args: &[&[u8]]) -> Result<HashAct, Why>
    requires { length args.now ≡ table_arity word }
    ensures { result ≡ table_act word (map (λ word. word.now) args.now) }
{
    match word {
        TableWord::Put => Ok(HashAct::Put(value_at(args, 1)?, value_at(args, 2)?)),
        TableWord::Find => Ok(HashAct::Find(value_at(args, 1)?)),
        TableWord::Del => Ok(HashAct::Del(value_at(args, 1)?)),
    }
}

/// The same on a table that grows.
pub fn grow_act(act: HashAct) -> GrowAct
    ensures { result ≡ grow_act act }
{
    match act {
        HashAct::Put(key, value) => GrowAct::Put(key, value),
        HashAct::Find(key) => GrowAct::Find(key),
        HashAct::Del(key) => GrowAct::Del(key),
        HashAct::Len => GrowAct::Len,
    }
}

#[tactic(auto, unfolding(crate::specs::Saying::cache_act))]
pub fn cache_act(word: CacheWord, args: &[&[u8]]) -> Result<CacheAct, Why>
    requires { length args.now ≡ cache_arity word }
    ensures { result ≡ cache_act word (map (λ word. word.now) args.now) }
{
    match word {
        CacheWord::CPut => Ok(CacheAct::CPut(value_at(args, 1)?, value_at(args, 2)?)),
        CacheWord::CPutWait => Ok(CacheAct::CPutWait(value_at(args, 1)?, value_at(args, 2)?)),
        CacheWord::CGet => Ok(CacheAct::CGet(value_at(args, 1)?)),
        CacheWord::CDel => Ok(CacheAct::CDel(value_at(args, 1)?)),
    }
}

#[tactic(auto, unfolding(crate::specs::Saying::mvar_act))]
pub fn mvar_act(word: MvarWord, args: &[&[u8]]) -> Result<MvarAct, Why>
    requires { length args.now ≡ mvar_arity word }
    ensures { result ≡ mvar_act word (map (λ word. word.now) args.now) }
{
    match word {
        MvarWord::Put => Ok(MvarAct::Put(value_at(args, 1)?)),
        MvarWord::Take => Ok(MvarAct::Take),
        MvarWord::Peek => Ok(MvarAct::Peek),
    }
}

#[tactic(auto, unfolding(crate::specs::Saying::promise_act))]
pub fn promise_act(word: PromiseWord, args: &[&[u8]]) -> Result<PromiseAct, Why>
    requires { length args.now ≡ promise_arity word }
    ensures { result ≡ promise_act word (map (λ word. word.now) args.now) }
{
    match word {
        PromiseWord::Resolve => Ok(PromiseAct::Resolve(value_at(args, 1)?)),
        PromiseWord::Await => Ok(PromiseAct::Await),
        PromiseWord::IsResolved => Ok(PromiseAct::IsResolved),
    }
}

/// Threads are numbered from 0 here.
#[tactic(auto, unfolding(crate::specs::Saying::acc_act))]
pub fn acc_act(thread: u32, word: AccWord, args: &[&[u8]]) -> Result<AccAct, Why>
    requires { length args.now ≡ acc_arity word }
    ensures { result ≡ acc_act thread word (map (λ word. word.now) args.now) }
{
    match word {
        AccWord::Bump => Ok(AccAct::Bump(thread, value_at(args, 1)?)),
        AccWord::Total => Ok(AccAct::Total),
    }
}
