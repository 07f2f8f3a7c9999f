//! A store of two callers, and their commits.

ghost use Rattle.std.specs.Prelude.{◌≡◌, ◌≤◌, IfSome, length};

use kc_await::commit_waiting;
use kc_loc::{LocOp, Rel};
use kc_model::{Loc, Reply};
use kc_store::{Caller, Outcome, Store};
use kc_xt::Transact;
use std::alloc::Global;
use std::process::Abort;
use std::sync::Wait;

pub(crate) const UNTIL_ONE: LocOp = LocOp::Check(Loc(0), Rel::Eq, 1);

pub(crate) const ONE: LocOp = LocOp::Set(Loc(0), 1);

// A store of these values, and two callers.
pub(crate) fn open_two(alloc: Global, values: &[u32]) -> Option<(Store, Caller, Caller)>
    ensures first { IfSome result (λ t. t.1.of ≡ t.0) }
    ensures second { IfSome result (λ t. t.2.of ≡ t.0) }
    ensures locations { IfSome result (λ t. t.0.locations ≡ length values.now) }
{
    let Ok((store, mut callers)) = Store::open(alloc, values, 2) else {
        return None;
    };
    let second = callers.pop()?;
    let first = callers.pop()?;
    Some((store, first, second))
}

// The same, where a test can't go on without them.
pub(crate) fn opened(rt: &(impl Abort + AllocGlobal), values: &[u32]) -> (Store, Caller, Caller)
    ensures first { result.1.of ≡ result.0 }
    ensures second { result.2.of ≡ result.0 }
    ensures locations { result.0.locations ≡ length values.now }
{
    open_two(rt.alloc(), values).expect(rt, "not opened")
}

// What a commit replies.
pub(crate) fn reply<R: Wait, T: Transact>(
    rt: &R,
    store: &Store,
    caller: &mut Caller,
    transaction: &T,
) -> Option<Reply>
    requires caller { caller.old.of ≡ store.now }
    requires fit { T.is_fit transaction.now }
    requires within { T.end transaction.now ≤ store.now.locations }
    ensures { caller.new.of ≡ caller.old.of }
{
    match commit_waiting(rt, store, caller, transaction) {
        Outcome::Done {
            reply,
            footprint: _,
        } => Some(reply),
        _ => None,
    }
}
