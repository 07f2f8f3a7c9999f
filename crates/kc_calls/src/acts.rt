//! What a number of a verb does to a structure of each kind, with the numbers behind it.

ghost use Rattle.std.specs.Prelude.{◌≡◌};
ghost use Rattle.kc_calls.specs.Said.{fun_said, rel_said, loc_said, stack_said, queue_said, table_said, grow_said, cache_said, mvar_said, promise_said, accumulator_said};

use crate::verbs::{
    ADD, AWAIT, BUMP, CAS, CDEL, CGET, CHECK, CPUT, CPUT_WAIT, DECR, DEL, DEQ, DEQ_WAIT, DIFFERS,
    ENQ, EQ, EXCHANGE, FIND, FRONT, FUN_ADD, FUN_AND, FUN_MAX, FUN_MIN, FUN_OR, FUN_XOR, GE, GET,
    GT, INCR, LE, LEN, LT, MODIFY, MPEEK, MPUT, MTAKE, NE, POP, POP_WAIT, PUSH, PUT, RESOLVE,
    RESOLVED, SET, SWAP, TOP, TOTAL, UPDATE,
};
use kc_cache::CacheAct;
use kc_cells::{AccAct, MvarAct, PromiseAct};
use kc_grow::GrowAct;
use kc_hash::HashAct;
use kc_loc::{Fun, LocOp, Rel};
use kc_model::Loc;
use kc_queue::QueueAct;
use kc_stack::StackAct;

fn fun(number: u32, with: u32) -> Option<Fun>
    ensures { result ≡ fun_said number with }
{
    match number {
        FUN_ADD => Some(Fun::Add(with)),
        FUN_MAX => Some(Fun::Max(with)),
        FUN_MIN => Some(Fun::Min(with)),
        FUN_AND => Some(Fun::And(with)),
        FUN_OR => Some(Fun::Or(with)),
        FUN_XOR => Some(Fun::Xor(with)),
        _ => None,
    }
}

fn rel(number: u32) -> Option<Rel>
    ensures { result ≡ rel_said number }
{
    match number {
        EQ => Some(Rel::Eq),
        NE => Some(Rel::Ne),
        LT => Some(Rel::Lt),
        LE => Some(Rel::Le),
        GT => Some(Rel::Gt),
        GE => Some(Rel::Ge),
        _ => None,
    }
}

#[inline(always)]
pub(crate) fn loc_op(at: Loc, verb: u32, a: u32, b: u32) -> Option<LocOp>
    ensures { result ≡ loc_said at verb a b }
{
    match verb {
        GET => Some(LocOp::Get(at)),
        SET => Some(LocOp::Set(at, a)),
        EXCHANGE => Some(LocOp::Exchange(at, a)),
        SWAP => Some(LocOp::Swap(at, Loc(a))),
        CAS => Some(LocOp::Cas(at, a, b)),
        ADD => Some(LocOp::FetchAdd(at, a)),
        INCR => Some(LocOp::Incr(at)),
        DECR => Some(LocOp::Decr(at)),
        UPDATE => Some(LocOp::Update(at, fun(a, b)?)),
        MODIFY => Some(LocOp::Modify(at, fun(a, b)?)),
        CHECK => Some(LocOp::Check(at, rel(a)?, b)),
        DIFFERS => Some(LocOp::Check(at, Rel::Ne, a)),
        _ => None,
    }
}

pub(crate) fn stack_act(verb: u32, a: u32) -> Option<StackAct>
    ensures { result ≡ stack_said verb a }
{
    match verb {
        PUSH => Some(StackAct::Push(a)),
        POP => Some(StackAct::Pop),
        POP_WAIT => Some(StackAct::PopWait),
        TOP => Some(StackAct::Top),
        LEN => Some(StackAct::Len),
        _ => None,
    }
}

pub(crate) fn queue_act(verb: u32, a: u32) -> Option<QueueAct>
    ensures { result ≡ queue_said verb a }
{
    match verb {
        ENQ => Some(QueueAct::Enq(a)),
        DEQ => Some(QueueAct::Deq),
        DEQ_WAIT => Some(QueueAct::DeqWait),
        FRONT => Some(QueueAct::Front),
        LEN => Some(QueueAct::Len),
        _ => None,
    }
}

pub(crate) fn table_act(verb: u32, a: u32, b: u32) -> Option<HashAct>
    ensures { result ≡ table_said verb a b }
{
    match verb {
        PUT => Some(HashAct::Put(a, b)),
        FIND => Some(HashAct::Find(a)),
        DEL => Some(HashAct::Del(a)),
        LEN => Some(HashAct::Len),
        _ => None,
    }
}

pub(crate) fn grow_act(verb: u32, a: u32, b: u32) -> Option<GrowAct>
    ensures { result ≡ grow_said verb a b }
{
    match verb {
        PUT => Some(GrowAct::Put(a, b)),
        FIND => Some(GrowAct::Find(a)),
        DEL => Some(GrowAct::Del(a)),
        LEN => Some(GrowAct::Len),
        _ => None,
    }
}

pub(crate) fn cache_act(verb: u32, a: u32, b: u32) -> Option<CacheAct>
    ensures { result ≡ cache_said verb a b }
{
    match verb {
        CPUT => Some(CacheAct::CPut(a, b)),
        CPUT_WAIT => Some(CacheAct::CPutWait(a, b)),
        CGET => Some(CacheAct::CGet(a)),
        CDEL => Some(CacheAct::CDel(a)),
        LEN => Some(CacheAct::Len),
        _ => None,
    }
}

pub(crate) fn mvar_act(verb: u32, a: u32) -> Option<MvarAct>
    ensures { result ≡ mvar_said verb a }
{
    match verb {
        MPUT => Some(MvarAct::Put(a)),
        MTAKE => Some(MvarAct::Take),
        MPEEK => Some(MvarAct::Peek),
        _ => None,
    }
}

pub(crate) fn promise_act(verb: u32, a: u32) -> Option<PromiseAct>
    ensures { result ≡ promise_said verb a }
{
    match verb {
        RESOLVE => Some(PromiseAct::Resolve(a)),
        AWAIT => Some(PromiseAct::Await),
        RESOLVED => Some(PromiseAct::IsResolved),
        _ => None,
    }
}

// The number to add is `a`, and `b` says to which cell.
pub(crate) fn accumulator_act(verb: u32, a: u32, b: u32) -> Option<AccAct>
    ensures { result ≡ accumulator_said verb a b }
{
    match verb {
        BUMP => Some(AccAct::Bump(b, a)),
        TOTAL => Some(AccAct::Total),
        _ => None,
    }
}
