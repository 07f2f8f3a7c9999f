//! The operation that C says, with its structure.

ghost use Rattle.std.specs.Prelude.{◌≡◌, Some, IfSome};
ghost use Rattle.kc_calls.specs.Said.{acted, call_said, done_to, plain_verb};
ghost use Rattle.kc_calls.specs.declared.call.Call.TheVariants as call;
ghost use Rattle.kc_script_bundle.specs.declared.operation.Op.TheVariants as op;

use crate::acts::{
    accumulator_act, cache_act, grow_act, loc_op, mvar_act, promise_act, queue_act, stack_act,
    table_act,
};
use crate::call::Call;
use crate::kinds::LOCATION;
use crate::layout::has_room;
use crate::operation::KcasOp;
use crate::verbs::{ENQ, ENQ_WAIT, PUSH, PUSH_WAIT, PUT, PUT_WAIT, SAY};
use kc_cache::CacheOp;
use kc_cells::{AccOp, MvarOp, PromiseOp};
use kc_grow::GrowOp;
use kc_hash::HashOp;
use kc_loc::LocOp;
use kc_model::Loc;
use kc_queue::QueueOp;
use kc_script_bundle::{Object, Op};
use kc_stack::StackOp;

impl KcasOp {
    // The operation on a location that it says, if it says one. Most do, and these take few steps to read.
    #[inline(always)]
    pub(crate) fn on_location(&self) -> Option<LocOp>
        ensures { IfSome result (λ o. call_said self.now ≡ Some (call.Act (op.Loc o))) }
    {
        if self.on.kind != LOCATION || !has_room(self.on.base, 1) {
            return None;
        }
        loc_op(Loc(self.on.base), self.verb, self.a, self.b)
    }

    // The operation that it says, if it is one.
    #[inline(always)]
    #[tactic(auto, unfolding(crate::specs::Said::call_said))]
    pub(crate) fn said(&self) -> Option<Call>
        ensures { result ≡ call_said self.now }
    {
        if self.verb == SAY {
            return Some(Call::Say(self.a));
        }
        match self.on.structure() {
            Some(structure) => done_to(structure, self.verb, self.a, self.b),
            None => None,
        }
    }
}

// What is done to a structure.
#[inline(always)]
#[tactic(auto, unfolding(crate::specs::Said::done_to))]
fn done_to(structure: Object, verb: u32, a: u32, b: u32) -> Option<Call>
    ensures { result ≡ done_to structure verb a b }
{
    match acted(structure, verb, a, b) {
        Some(operation) => Some(Call::Act(operation)),
        None => {
            let plain = plain_verb(verb)?;
            Some(Call::WaitForRoom(acted(structure, plain, a, b)?))
        }
    }
}

fn plain_verb(verb: u32) -> Option<u32>
    ensures { result ≡ plain_verb verb }
{
    match verb {
        PUSH_WAIT => Some(PUSH),
        ENQ_WAIT => Some(ENQ),
        PUT_WAIT => Some(PUT),
        _ => None,
    }
}

fn acted(structure: Object, verb: u32, a: u32, b: u32) -> Option<Op>
    ensures { result ≡ acted structure verb a b }
{
    let operation = match structure {
        Object::Loc { at, .. } => Op::Loc(loc_op(at, verb, a, b)?),
        Object::Stack(stack) => Op::Stack(StackOp {
            stack,
            act: stack_act(verb, a)?,
        }),
        Object::Queue(queue) => Op::Queue(QueueOp {
            queue,
            act: queue_act(verb, a)?,
        }),
        Object::Hash(hash) => Op::Hash(HashOp {
            hash,
            act: table_act(verb, a, b)?,
        }),
        Object::Grow(grow) => Op::Grow(GrowOp {
            grow,
            act: grow_act(verb, a, b)?,
        }),
        Object::Cache(cache) => Op::Cache(CacheOp {
            cache,
            act: cache_act(verb, a, b)?,
        }),
        Object::Mvar(mvar) => Op::Mvar(MvarOp {
            mvar,
            act: mvar_act(verb, a)?,
        }),
        Object::Promise(promise) => Op::Promise(PromiseOp {
            promise,
            act: promise_act(verb, a)?,
        }),
        Object::Acc(acc) => Op::Acc(AccOp {
            acc,
            act: accumulator_act(verb, a, b)?,
        }),
    };
    Some(operation)
}
