//! What two callers on threads want: a store with its callers, and room for what they read.

ghost use Rattle.std.specs.Prelude.{◌≡◌, ◌≤◌, [], length, IfOk, vec_capacity};
ghost use Rattle.kc_text_run.specs.Picking.{IsForTwo, IsFresh};

use kc_model::NoMemory;
use kc_store::{Caller, Store};
use kc_text::{Text, Texts};
use std::alloc::{AllocError, Global};

/// A store of zeros for the cells of these texts, its two callers, and room for them when they come back.
///
/// # Errors
///
/// Want of memory
pub fn open_for_two(
    alloc: Global,
    texts: &Texts,
) -> Result<(Store, Caller, Caller, Vec<Caller>), NoMemory>
    ensures store { IfOk result (λ r. IsForTwo texts.now r.0) }
    ensures first { IfOk result (λ r. IsFresh r.0 0 r.1) }
    ensures second { IfOk result (λ r. IsFresh r.0 1 r.2) }
    ensures room { IfOk result (λ r. (r.3.items ≡ []) × (2 ≤ vec_capacity r.3)) }
{
    let Ok(values) = vec![in alloc; 0u32; texts.end() as usize] else {
        return Err(NoMemory);
    };
    let Ok((store, mut callers)) = Store::open(alloc, values.as_slice(), 2) else {
        return Err(NoMemory);
    };
    callers[0].shows();
    let second = callers.pop();
    let first = callers.pop();
    match (first, second) {
        (Some(first), Some(second)) => Ok((store, first, second, callers)),
        _ => unreachable!("it has two callers"),
    }
}

/// Room for the lines that are read: so many empty texts.
///
/// # Errors
///
/// Want of memory
pub fn blank_lines(alloc: Global, count: usize) -> Result<Vec<Text>, AllocError>
    ensures { IfOk result (λ v. length v.items ≡ count) }
{
    let mut lines = Vec::with_capacity(alloc, count)?;
    for i in 0..count {
        match Text::new(&[]) {
            Some(text) => lines.push_reserved(text),
            None => unreachable!("it is short"),
        }
    }
    Ok(lines)
}
