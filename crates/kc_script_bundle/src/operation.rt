//! The operations and the commands.

ghost use Rattle.kc_script_bundle.specs.Meaning.{op_meaning, op_end, OpIsFit, command_meaning, command_end, CommandIsFit};

use crate::cancel::Cancel;
use kc_cache::CacheOp;
use kc_cells::{AccOp, MvarOp, PromiseOp};
use kc_grow::GrowOp;
use kc_hash::HashOp;
use kc_loc::LocOp;
use kc_model::{MOST, Reply};
use kc_queue::QueueOp;
use kc_stack::StackOp;
use kc_term::Term;
use kc_xt::{Peek, Stop, Transact, Xt};

/// An operation on an object, or a cancel.
#[derive(Clone, Copy, Debug, PartialEq, Eq)]
pub enum Op {
    Loc(LocOp),
    Stack(StackOp),
    Queue(QueueOp),
    Mvar(MvarOp),
    Promise(PromiseOp),
    Acc(AccOp),
    Hash(HashOp),
    Grow(GrowOp),
    Cache(CacheOp),
    Cancel(Cancel),
}

impl Transact for Op {
    ghost meaning = { op_meaning };

    ghost is_fit = { OpIsFit };

    ghost end = { op_end };

    fn bound(&self) -> u32 {
        match self {
            Op::Loc(op) => op.bound(),
            Op::Stack(op) => op.bound(),
            Op::Queue(op) => op.bound(),
            Op::Mvar(op) => op.bound(),
            Op::Promise(op) => op.bound(),
            Op::Acc(op) => op.bound(),
            Op::Hash(op) => op.bound(),
            Op::Grow(op) => op.bound(),
            Op::Cache(op) => op.bound(),
            Op::Cancel(op) => op.bound(),
        }
    }

    fn limit(&self) -> u32 {
        MOST as u32
    }

    fn run<P: Peek>(&self, xt: &mut Xt<P>) -> Result<Reply, Stop> {
        match self {
            Op::Loc(op) => op.run(xt),
            Op::Stack(op) => op.run(xt),
            Op::Queue(op) => op.run(xt),
            Op::Mvar(op) => op.run(xt),
            Op::Promise(op) => op.run(xt),
            Op::Acc(op) => op.run(xt),
            Op::Hash(op) => op.run(xt),
            Op::Grow(op) => op.run(xt),
            Op::Cache(op) => op.run(xt),
            Op::Cancel(op) => op.run(xt),
        }
    }
}

/// A command of a thread: one operation, or a block of operations with alternatives.
#[derive(Drop)]
pub enum Command {
    One(Op),
    Block(Term<Op>),
}

impl Transact for Command {
    ghost meaning = { command_meaning };

    ghost is_fit = { CommandIsFit };

    ghost end = { command_end };

    fn bound(&self) -> u32 {
        match self {
            Command::One(op) => op.bound(),
            Command::Block(term) => term.bound(),
        }
    }

    fn limit(&self) -> u32 {
        MOST as u32
    }

    fn run<P: Peek>(&self, xt: &mut Xt<P>) -> Result<Reply, Stop> {
        match self {
            Command::One(op) => op.run(xt),
            Command::Block(term) => term.run(xt),
        }
    }
}
