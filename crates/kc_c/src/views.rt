//! What C calls to view.

ghost use Rattle.std.specs.Prelude.{◌≡◌, false, true};
ghost use Rattle.kc_c.specs.Clients.{HandleIsClosed, IsOpen};
ghost use Rattle.kc_c.specs.Sights.{IsViewedByCaller};
ghost use Rattle.kc_c.specs.Standings.{rests};
ghost use Rattle.kc_c.specs.Tries.{MayTry};

use crate::answers::{BAD_OPS, CLOSED, NOT_NOW};
use crate::handle::KcasCaller;
use kc_calls::{KcasOp, KcasReply};
use std::alloc::Global;

/// Views the operations once, as one transaction that puts nothing, 1 to 16, and writes a reply for each to the first of the replies:
/// DONE, where all that they read stood at one moment. Else why not, and no reply is written: LATER, TOO_LARGE; PUTS where they would
/// put something; CHANGED where what they read has changed since; BUSY. It makes no entry, puts nothing, wakes nobody, and neither waits,
/// nor tries again, nor takes memory.
///
/// Refused, and nothing changes: CLOSED; NOT_NOW for one that hangs; BAD_OPS where these are not operations on this store's
/// locations, or there are fewer replies than operations.
#[unsafe(no_mangle)]
pub extern "C" fn kcas_view(
    alloc: Global,
    caller: &mut KcasCaller,
    ops: &[KcasOp],
    replies: &mut [KcasReply],
) -> u32
    ensures closed { HandleIsClosed caller.old → (result ≡ CLOSED) × (caller.new ≡ caller.old) × (replies.new ≡ replies.old) }
    ensures stays { IsOpen caller.old → IsOpen caller.new }
    ensures not_now { IsOpen caller.old → rests caller.old.value.standing ≡ false → (result ≡ NOT_NOW) × (caller.new.value ≡ caller.old.value) × (replies.new ≡ replies.old) }
    ensures bad_ops { IsOpen caller.old → rests caller.old.value.standing ≡ true → ¬ MayTry caller.old.value.locations ops.now replies.old → (result ≡ BAD_OPS) × (caller.new.value ≡ caller.old.value) × (replies.new ≡ replies.old) }
    ensures viewed { IsOpen caller.old → rests caller.old.value.standing ≡ true → MayTry caller.old.value.locations ops.now replies.old → IsViewedByCaller ops.now caller.old.value result caller.new.value replies.old replies.new }
{
    if !caller.is_open() {
        return CLOSED;
    }
    let mut client = caller.take(alloc);
    let answer = client.view(ops, replies);
    caller.put(client);
    answer
}
