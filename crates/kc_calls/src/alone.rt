//! One operation alone, on one location: the transaction that programs make most often.
//!
//! A reply has room for 16 items, and to carry it costs half as much as such an operation. So it is made without one: what it replies
//! is told by what it read.

ghost use Rattle.std.specs.Prelude.{◌≡◌, ◌≤◌, ◌∷◌, [], true, IfSome};
ghost use Rattle.kc_calls.specs.Alone.{IsAlone, first_value, has_one_location, reply_on};
ghost use Rattle.kc_calls.specs.Silent.{silent};
ghost use Rattle.kc_calls.specs.Told.{replies_told};
ghost use Rattle.kc_loc.specs.Meaning.{LocIsFit, loc_end, loc_last, loc_meaning};
ghost use Rattle.kc_model.specs.declared.plain_store.TheConstants.{MOST_LOCATIONS};
ghost use Rattle.kc_term.specs.Meaning.{items_of};

use crate::operation::KcasOp;
use crate::reply::{KcasReply, told};
use crate::verbs::NEXT;
use kc_loc::LocOp;
use kc_model::{Footprint, Item, Loc, MOST, Reply, Seen};
use kc_xt::{Peek, Stop, Transact, Xt};

/// What an operation does. It replies no more than that it is done.
#[derive(Clone, Copy)]
pub struct Silent {
    pub operation: LocOp,
}

impl Transact for Silent {
    ghost meaning = { λ s. silent (loc_meaning s.operation) };

    ghost is_fit = { λ s. LocIsFit s.operation × (has_one_location s.operation ≡ true) };

    ghost end = { λ s. loc_end s.operation };

    fn bound(&self) -> u32 {
        self.operation.bound()
    }

    fn limit(&self) -> u32 {
        MOST as u32
    }

    #[inline(always)]
    fn run<P: Peek>(&self, xt: &mut Xt<P>) -> Result<Reply, Stop> {
        match self.operation {
            LocOp::Swap(_, _) => unreachable!("a swap has two locations"),
            operation => {
                operation.run(xt)?;
                Ok(Reply::Unit)
            }
        }
    }
}

/// The operation, where there is one alone, on one location of a store of so many.
#[inline(always)]
pub fn alone_on_location(ops: &[KcasOp], locations: u32) -> Option<LocOp>
    requires { locations ≤ MOST_LOCATIONS }
    ensures { IfSome result (λ o. IsAlone locations ops.now o) }
{
    let [op] = ops else {
        return None;
    };
    if op.mark != NEXT {
        return None;
    }
    let operation = op.on_location()?;
    if only_location(operation)?.0 >= locations {
        return None;
    }
    Some(operation)
}

#[inline(always)]
fn only_location(operation: LocOp) -> Option<Loc>
    ensures at { IfSome result (λ l. l.0 ≡ loc_last operation) }
    ensures one { IfSome result (λ l. has_one_location operation ≡ true) }
{
    match operation {
        LocOp::Swap(_, _) => None,
        LocOp::Get(at)
        | LocOp::Set(at, _)
        | LocOp::Exchange(at, _)
        | LocOp::Cas(at, _, _)
        | LocOp::FetchAdd(at, _)
        | LocOp::Incr(at)
        | LocOp::Decr(at)
        | LocOp::Update(at, _)
        | LocOp::Modify(at, _)
        | LocOp::Check(at, _, _) => Some(at),
    }
}

/// What C is told of an operation that was done, by what it read.
#[inline(always)]
pub fn told_alone(operation: LocOp, footprint: &Footprint) -> KcasReply
    ensures { replies_told (items_of (reply_on operation (first_value footprint.now.reads.items))) 1 ≡ result ∷ [] }
{
    told(item_on(operation, first_value(footprint.reads.as_slice())))
}

/// The value of the first of these reads; 0 where there is none.
#[inline(always)]
pub fn first_value(reads: &[Seen]) -> u32
    ensures { result ≡ first_value reads.now }
{
    match reads {
        [read, ..] => read.value,
        [] => 0,
    }
}

#[inline(always)]
fn item_on(operation: LocOp, value: u32) -> Item
    ensures { items_of (reply_on operation value) ≡ result ∷ [] }
{
    match operation {
        LocOp::Get(_) | LocOp::Exchange(_, _) | LocOp::FetchAdd(_, _) | LocOp::Update(_, _) =>
            Item::Value(value),
        LocOp::Cas(_, before, _) => Item::Bool(value == before),
        LocOp::Set(_, _)
        | LocOp::Swap(_, _)
        | LocOp::Incr(_)
        | LocOp::Decr(_)
        | LocOp::Modify(_, _)
        | LocOp::Check(_, _, _) => Item::Unit,
    }
}
