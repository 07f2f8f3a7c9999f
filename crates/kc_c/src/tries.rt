//! What C calls to make a transaction.

ghost use Rattle.std.specs.Prelude.{◌≡◌, ◌≤◌, ◌<◌, ◌∷◌, [], false, true};
ghost use Rattle.kc_c.specs.Clients.{HandleIsClosed, IsOpen};
ghost use Rattle.kc_c.specs.Standings.{rests};
ghost use Rattle.kc_c.specs.Tries.{IsTried, MayTry, add_words, value_told};

use crate::answers::{BAD_OPS, CLOSED, NOT_NOW};
use crate::handle::KcasCaller;
use kc_calls::{KcasOp, KcasReply};
use std::alloc::Global;

/// Tries the operations once, as one transaction, 1 to 16, and writes a reply for each to the first of the replies: DONE. Else why
/// not: LATER, TOO_LARGE, WORN, POOL_WORN, LOST, BUSY, and no reply is written. Of each caller that has to be woken for it the bit of
/// its number is set in `wakes`, else none. It neither waits, nor tries again, nor takes memory.
///
/// Refused, and nothing changes: CLOSED; NOT_NOW for one that hangs; BAD_OPS where these are not operations on this store's
/// locations, or there are fewer replies than operations.
#[unsafe(no_mangle)]
pub extern "C" fn kcas_try(
    alloc: Global,
    caller: &mut KcasCaller,
    ops: &[KcasOp],
    replies: &mut [KcasReply],
    wakes: &mut u64,
) -> u32
    ensures closed { HandleIsClosed caller.old → (result ≡ CLOSED) × (caller.new ≡ caller.old) × (replies.new ≡ replies.old) × (wakes.new ≡ wakes.old) }
    ensures stays { IsOpen caller.old → IsOpen caller.new }
    ensures not_now { IsOpen caller.old → rests caller.old.value.standing ≡ false → (result ≡ NOT_NOW) × (caller.new.value ≡ caller.old.value) × (replies.new ≡ replies.old) × (wakes.new ≡ wakes.old) }
    ensures bad_ops { IsOpen caller.old → rests caller.old.value.standing ≡ true → ¬ MayTry caller.old.value.locations ops.now replies.old → (result ≡ BAD_OPS) × (caller.new.value ≡ caller.old.value) × (replies.new ≡ replies.old) × (wakes.new ≡ wakes.old) }
    ensures tried { IsOpen caller.old → rests caller.old.value.standing ≡ true → MayTry caller.old.value.locations ops.now replies.old → IsTried ops.now caller.old.value result caller.new.value replies.old replies.new }
{
    if !caller.is_open() {
        return CLOSED;
    }
    let mut client = caller.take(alloc);
    let answer = client.attempt(ops, replies, wakes);
    caller.put(client);
    answer
}

/// Tries once, as one transaction, to add a number to a location, and writes what stood there before: DONE. The sum wraps. Else why
/// not, as `kcas_try` of one ADD, and the value before stays as it was. Of each caller that has to be woken for it the bit of its number is set in
/// `wakes`, else none. It neither waits, nor tries again, nor takes memory.
///
/// Refused, and nothing changes: CLOSED; NOT_NOW for one that hangs; BAD_OPS for a location that the store doesn't have.
#[unsafe(no_mangle)]
pub extern "C" fn kcas_add(
    alloc: Global,
    caller: &mut KcasCaller,
    location: u32,
    number: u32,
    before: &mut u32,
    wakes: &mut u64,
) -> u32
    ensures closed { HandleIsClosed caller.old → (result ≡ CLOSED) × (caller.new ≡ caller.old) × (before.new ≡ before.old) × (wakes.new ≡ wakes.old) }
    ensures stays { IsOpen caller.old → IsOpen caller.new }
    ensures not_now { IsOpen caller.old → rests caller.old.value.standing ≡ false → (result ≡ NOT_NOW) × (caller.new.value ≡ caller.old.value) × (before.new ≡ before.old) × (wakes.new ≡ wakes.old) }
    ensures bad_ops { IsOpen caller.old → rests caller.old.value.standing ≡ true → caller.old.value.locations ≤ location → (result ≡ BAD_OPS) × (caller.new.value ≡ caller.old.value) × (before.new ≡ before.old) × (wakes.new ≡ wakes.old) }
    ensures tried { IsOpen caller.old → rests caller.old.value.standing ≡ true → location < caller.old.value.locations → IsTried (add_words location number ∷ []) caller.old.value result caller.new.value (value_told before.old ∷ []) (value_told before.new ∷ []) }
{
    if !caller.is_open() {
        return CLOSED;
    }
    let mut client = caller.take(alloc);
    let answer = client.add(location, number, before, wakes);
    caller.put(client);
    answer
}
