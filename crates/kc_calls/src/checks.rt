//! Whether what C says are operations of a transaction.

ghost use Rattle.std.specs.Prelude.{◌≡◌, ◌≤◌, ◌↔◌, length, IsTrue};
ghost use Rattle.kc_term.specs.Fit.{Each};
ghost use Rattle.kc_calls.specs.Cut.{ors};
ghost use Rattle.kc_calls.specs.declared.calls.TheConstants.{MOST_CALLS};
ghost use Rattle.kc_calls.specs.Fed.{AreFed, IsFed, MayBeFed, takes_number};
ghost use Rattle.kc_calls.specs.Operations.{AreOperations};
ghost use Rattle.kc_calls.specs.Meaning.{CallsAreFit, IsOperation, calls_end};
ghost use Rattle.kc_model.specs.declared.plain_store.TheConstants.{MOST_LOCATIONS};

use crate::calls::{MOST_ALTERNATIVES, MOST_CALLS};
use crate::operation::KcasOp;
use crate::sequence::{feeds_a, feeds_b};
use crate::verbs::{CHECK, FED_BOTH, MODIFY, NEXT, OR, SWAP, UPDATE};
use kc_xt::Transact;

/// Whether these are the operations of a transaction on a store of so many locations: 1 to 16, each of a verb that its
/// structure has, on cells below that number, with a mark of 0 to 4, the first with 0; at most four alternatives. One that is fed names
/// operations before it in its alternative, and is fed values and keys alone.
pub fn are_operations(ops: &[KcasOp], locations: u32) -> bool
    requires { locations ≤ MOST_LOCATIONS }
    ensures is { IsTrue result ↔ AreOperations locations ops.now }
    ensures fit { AreOperations locations ops.now → CallsAreFit ops.now }
    ensures end { AreOperations locations ops.now → calls_end ops.now ≤ locations }
{
    if ops.is_empty() || ops.len() > MOST_CALLS as usize || ops[0].mark != NEXT {
        return false;
    }
    count_of_ors(ops) < MOST_ALTERNATIVES && are_fed(ops) && are_each_operations(ops, locations)
}

#[inline(always)]
fn is_operation(op: &KcasOp, locations: u32) -> bool
    requires { locations ≤ MOST_LOCATIONS }
    ensures { IsTrue result ↔ IsOperation locations op.now }
{
    match op.on_location() {
        Some(operation) => {
            op.mark <= FED_BOTH && may_be_fed(op) && operation.bound() <= locations
        }
        None => is_said(op, locations),
    }
}

// Kept apart from operations on locations, for which the room for those on structures would be wiped too.
#[inline(never)]
fn is_said(op: &KcasOp, locations: u32) -> bool
    requires { locations ≤ MOST_LOCATIONS }
    ensures { IsTrue result ↔ IsOperation locations op.now }
{
    match op.said() {
        Some(call) => op.mark <= FED_BOTH && may_be_fed(op) && call.bound() <= locations,
        None => false,
    }
}

// Whether it is fed values and keys alone.
#[inline(always)]
fn may_be_fed(op: &KcasOp) -> bool
    ensures { IsTrue result ↔ MayBeFed op.now }
{
    !feeds_a(op.mark) || takes_number(op.verb)
}

fn takes_number(verb: u32) -> bool
    ensures { result ≡ takes_number verb }
{
    !(verb == SWAP || verb == UPDATE || verb == MODIFY || verb == CHECK)
}

// Whether each names operations before it in its alternative.
fn are_fed(ops: &[KcasOp]) -> bool
    requires { length ops.now ≤ MOST_CALLS }
    ensures { IsTrue result ↔ AreFed 0 ops.now }
{
    let mut before = 0;
    for op in ops {
        let place = if op.mark == OR { 0 } else { before };
        if !is_fed(op, place) {
            return false;
        }
        before = place + 1;
    }
    true
}

fn is_fed(op: &KcasOp, before: u32) -> bool
    ensures { IsTrue result ↔ IsFed before op.now }
{
    (!feeds_a(op.mark) || op.a < before) && (!feeds_b(op.mark) || op.b < before)
}

fn are_each_operations(ops: &[KcasOp], locations: u32) -> bool
    requires { locations ≤ MOST_LOCATIONS }
    ensures { IsTrue result ↔ Each (IsOperation locations) ops.now }
{
    for op in ops {
        if !is_operation(op, locations) {
            return false;
        }
    }
    true
}

// How many of them begin another alternative.
fn count_of_ors(ops: &[KcasOp]) -> u32
    requires { length ops.now ≤ MOST_CALLS }
    ensures { result ≡ ors ops.now }
{
    let mut count = 0;
    for op in ops {
        if op.mark == OR {
            count += 1;
        }
    }
    count
}
