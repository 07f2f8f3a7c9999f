//! A store that opens as laid, for two threads or for four; and their callers, put together again.

ghost use Rattle.std.specs.Prelude.{◌≡◌, [], ◌∷◌, IfErr, IfOk, length};
ghost use Rattle.kc_keep.specs.Unworn.{OpensUnworn};
ghost use Rattle.kc_lay.specs.Placed.{OpensAsLaid};
ghost use Rattle.kc_store.specs.Views.{opened_caller, store_opening};
ghost use Rattle.kc_xt.specs.Meaning.{values};

use kc_lay::Layout;
use kc_store::{Caller, Store};
use std::alloc::Global;
use std::io;

/// A store that threads share without a lock, which opens as laid, with all versions and lives before it, and its two callers.
///
/// # Errors
///
/// - OutOfMemory: there is no memory for it, or the layout has more than 65,536 locations
pub fn open_for_two(alloc: Global, layout: &Layout) -> io::Result<(Store, Caller, Caller)>
    ensures many { IfOk result (λ t. t.0.callers ≡ 2) }
    ensures unworn { IfOk result (λ t. OpensUnworn layout.now 2 t.0) }
    ensures locations { IfOk result (λ t. t.0.locations ≡ length layout.now) }
    ensures opens { IfOk result (λ t. OpensAsLaid layout.now (values (store_opening t.0))) }
    ensures first { IfOk result (λ t. t.1 ≡ opened_caller t.0 0) }
    ensures second { IfOk result (λ t. t.2 ≡ opened_caller t.0 1) }
{
    let Ok((store, mut callers)) = Store::open(alloc, layout.values(), 2) else {
        return Err(io::ErrorKind::OutOfMemory.into());
    };
    let (Some(second), Some(first)) = (callers.pop(), callers.pop()) else {
        unreachable!("a store has as many callers as it was opened for");
    };
    Ok((store, first, second))
}

/// Likewise, and its four callers.
///
/// # Errors
///
/// - OutOfMemory: there is no memory for it, or the layout has more than 65,536 locations
pub fn open_for_four(
    alloc: Global,
    layout: &Layout,
) -> io::Result<(Store, Caller, Caller, Caller, Caller)>
    ensures many { IfOk result (λ t. t.0.callers ≡ 4) }
    ensures unworn { IfOk result (λ t. OpensUnworn layout.now 4 t.0) }
    ensures locations { IfOk result (λ t. t.0.locations ≡ length layout.now) }
    ensures opens { IfOk result (λ t. OpensAsLaid layout.now (values (store_opening t.0))) }
    ensures first { IfOk result (λ t. t.1 ≡ opened_caller t.0 0) }
    ensures second { IfOk result (λ t. t.2 ≡ opened_caller t.0 1) }
    ensures third { IfOk result (λ t. t.3 ≡ opened_caller t.0 2) }
    ensures fourth { IfOk result (λ t. t.4 ≡ opened_caller t.0 3) }
{
    let Ok((store, mut callers)) = Store::open(alloc, layout.values(), 4) else {
        return Err(io::ErrorKind::OutOfMemory.into());
    };
    let (Some(fourth), Some(third), Some(second), Some(first)) = (
        callers.pop(),
        callers.pop(),
        callers.pop(),
        callers.pop(),
    ) else {
        unreachable!("a store has as many callers as it was opened for");
    };
    Ok((store, first, second, third, fourth))
}

/// Two callers as a list, for `finish_kept`.
///
/// # Errors
///
/// - the callers: there is no memory for the list
pub fn both_callers(
    alloc: Global,
    first: Caller,
    second: Caller,
) -> Result<Vec<Caller>, (Caller, Caller)>
    ensures all { IfOk result (λ v. v.items ≡ first ∷ second ∷ []) }
    ensures back { IfErr result (λ t. t ≡ (first, second)) }
{
    let Ok(mut callers) = Vec::with_capacity(alloc, 2) else {
        return Err((first, second));
    };
    callers.push_reserved(first);
    callers.push_reserved(second);
    Ok(callers)
}

/// Four callers as a list.
///
/// # Errors
///
/// - the callers: there is no memory for the list
pub fn four_callers(
    alloc: Global,
    first: Caller,
    second: Caller,
    third: Caller,
    fourth: Caller,
) -> Result<Vec<Caller>, (Caller, Caller, Caller, Caller)>
    ensures all { IfOk result (λ v. v.items ≡ first ∷ second ∷ third ∷ fourth ∷ []) }
    ensures back { IfErr result (λ t. t ≡ (first, second, third, fourth)) }
{
    let Ok(mut callers) = Vec::with_capacity(alloc, 4) else {
        return Err((first, second, third, fourth));
    };
    callers.push_reserved(first);
    callers.push_reserved(second);
    callers.push_reserved(third);
    callers.push_reserved(fourth);
    Ok(callers)
}
