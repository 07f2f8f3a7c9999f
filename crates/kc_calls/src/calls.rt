//! The operations of one transaction, as C says them.

ghost use Rattle.std.specs.Prelude.{◌≡◌, ◌≤◌, ◌<◌, length};
ghost use Rattle.kc_calls.specs.Cut.{cut};
ghost use Rattle.kc_calls.specs.Meaning.{said_meaning, said_end, SaidIsFit, alternatives_meaning, calls_meaning, calls_end, CallsAreFit};
ghost use Rattle.kc_xt.specs.Law.{Obeys};

use crate::operation::KcasOp;
use crate::sequence::Sequence;
use crate::verbs::OR;
use kc_model::{MOST, Reply};
use kc_term::{Either, Row};
use kc_xt::{Peek, Stop, Transact, Xt};

/// How many operations a transaction may have.
pub const MOST_CALLS: u32 = 16;

/// How many alternatives a transaction may have.
pub const MOST_ALTERNATIVES: u32 = 4;

impl Transact for KcasOp {
    ghost meaning = { said_meaning };

    ghost is_fit = { SaidIsFit };

    ghost end = { said_end };

    #[inline(always)]
    fn bound(&self) -> u32 {
        match self.on_location() {
            Some(operation) => operation.bound(),
            None => bound_said(self),
        }
    }

    fn limit(&self) -> u32 {
        MOST as u32
    }

    #[inline(always)]
    fn run<P: Peek>(&self, xt: &mut Xt<P>) -> Result<Reply, Stop> {
        match self.on_location() {
            Some(operation) => operation.run(xt),
            None => run_said(self, xt),
        }
    }
}

// Kept apart from operations on locations, for which the room for those on structures would be wiped too.
#[inline(never)]
fn bound_said(op: &KcasOp) -> u32
    ensures { result ≡ said_end op.now }
{
    match op.said() {
        Some(call) => call.bound(),
        None => 0,
    }
}

// Kept apart, as their bound is.
#[inline(never)]
fn run_said<P: Peek>(op: &KcasOp, xt: &mut Xt<P>) -> Result<Reply, Stop>
    requires fit { SaidIsFit op.now }
    requires within { said_end op.now ≤ P.locations xt.old.peek }
    ensures law { Obeys P.peek_gives (said_meaning op.now) (said_end op.now) xt.old result xt.new }
    ensures size { P.locations xt.new.peek ≡ P.locations xt.old.peek }
{
    match op.said() {
        Some(call) => call.run(xt),
        None => unreachable!("only operations are fit"),
    }
}

/// The operations one after another, or the first of the alternatives that doesn't wait, as one transaction, where they
/// lie. It replies what each operation that ran replied, in order, and takes no memory. An operation may be fed what others before it
/// in its alternative replied.
#[derive(Drop)]
pub struct Calls<'a> {
    pub ops: &'a [KcasOp],
}

/// They are fit where `are_operations` of them is true on a store that has at most 65,536 locations.
impl<'a> Transact for Calls<'a> {
    ghost meaning = { λ c. calls_meaning c.ops.now };

    ghost is_fit = { λ c. CallsAreFit c.ops.now };

    ghost end = { λ c. calls_end c.ops.now };

    fn bound(&self) -> u32 {
        Row { ops: self.ops }.bound()
    }

    fn limit(&self) -> u32 {
        MOST as u32
    }

    // One operation is run as itself, which spares the list of replies.
    fn run<P: Peek>(&self, xt: &mut Xt<P>) -> Result<Reply, Stop> {
        match self.ops {
            [operation] => operation.run(xt),
            operations => run_alternatives(operations, xt),
        }
    }
}

// Up to four alternatives.
#[inline(never)]
fn run_alternatives<P: Peek>(ops: &[KcasOp], xt: &mut Xt<P>) -> Result<Reply, Stop>
    requires fit { CallsAreFit ops.now }
    requires within { calls_end ops.now ≤ P.locations xt.old.peek }
    ensures law { Obeys P.peek_gives (alternatives_meaning 3 ops.now) (calls_end ops.now) xt.old result xt.new }
    ensures size { P.locations xt.new.peek ≡ P.locations xt.old.peek }
{
    let one = cut_of(ops);
    if one == ops.len() {
        return Sequence { ops }.run(xt);
    }
    let (first, behind_one) = ops.split_at(one);
    let first = Sequence { ops: first };
    let two = cut_of(behind_one);
    if two == behind_one.len() {
        let second = Sequence { ops: behind_one };
        return Either { first, second }.run(xt);
    }
    let (second, behind_two) = behind_one.split_at(two);
    let second = Sequence { ops: second };
    let three = cut_of(behind_two);
    if three == behind_two.len() {
        let third = Sequence { ops: behind_two };
        let second = Either {
            first: second,
            second: third,
        };
        return Either { first, second }.run(xt);
    }
    let (third, fourth) = behind_two.split_at(three);
    let third = Either {
        first: Sequence { ops: third },
        second: Sequence { ops: fourth },
    };
    let second = Either {
        first: second,
        second: third,
    };
    Either { first, second }.run(xt)
}

// How many operations the first alternative has.
fn cut_of(ops: &[KcasOp]) -> usize
    ensures is { result ≡ cut ops.now }
    ensures within { result ≤ length ops.now }
{
    if ops.len() == 0 {
        return 0;
    }
    let mut at = 1;
    while at < ops.len() && ops[at].mark != OR {
        at += 1;
    }
    at
}
