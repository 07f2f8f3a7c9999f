//! What C calls to wait, a step a call.

ghost use Rattle.std.specs.Prelude.{◌≡◌};
ghost use Rattle.kc_c.specs.Clients.{HandleIsClosed, IsOpen};
ghost use Rattle.kc_c.specs.Standings.{hanging_on};
ghost use Rattle.kc_c.specs.Waits.{HangingHears, HangingLeaves, ClientMayHang, StepsOn};

use crate::answers::{CLOSED, GOING, NOT_NOW};
use crate::handle::KcasCaller;
use std::alloc::Global;

/// Begins a hang on what the last try read, whose steps are still to be made: GOING. CLOSED, and NOT_NOW for one that hangs and where
/// the last try read nothing; then nothing changes.
#[unsafe(no_mangle)]
pub extern "C" fn kcas_hang(alloc: Global, caller: &mut KcasCaller) -> u32
    ensures closed { HandleIsClosed caller.old → (result ≡ CLOSED) × (caller.new ≡ caller.old) }
    ensures stays { IsOpen caller.old → IsOpen caller.new }
    ensures refused { IsOpen caller.old → ¬ ClientMayHang caller.old.value → (result ≡ NOT_NOW) × (caller.new.value ≡ caller.old.value) }
    ensures hangs { IsOpen caller.old → ClientMayHang caller.old.value → (result ≡ GOING) × (caller.new.value.standing ≡ hanging_on caller.old.value.footprint caller.old.value.standing) }
    ensures footprint { IsOpen caller.old → caller.new.value.footprint ≡ caller.old.value.footprint }
{
    if !caller.is_open() {
        return CLOSED;
    }
    let mut client = caller.take(alloc);
    let answer = client.hang();
    caller.put(client);
    answer
}

/// One step of a hang, or of its leave: GOING or LEAVING while there are more to make; HUNG once the caller will be signalled, and then
/// no step is made; FREE where what it read has changed or the leave has ended, and it may begin a transaction again. CLOSED, and
/// NOT_NOW for one that doesn't hang; then nothing changes. It signals nobody.
#[unsafe(no_mangle)]
pub extern "C" fn kcas_hang_step(alloc: Global, caller: &mut KcasCaller) -> u32
    ensures closed { HandleIsClosed caller.old → (result ≡ CLOSED) × (caller.new ≡ caller.old) }
    ensures stays { IsOpen caller.old → IsOpen caller.new }
    ensures steps { IsOpen caller.old → StepsOn caller.old.value.standing result caller.new.value.standing }
    ensures refused { IsOpen caller.old → result ≡ NOT_NOW → caller.new.value ≡ caller.old.value }
    ensures footprint { IsOpen caller.old → caller.new.value.footprint ≡ caller.old.value.footprint }
{
    if !caller.is_open() {
        return CLOSED;
    }
    let mut client = caller.take(alloc);
    let answer = client.hang_step();
    caller.put(client);
    answer
}

/// Whether the signal of a caller that hangs stands, by one load: SIGNALLED or QUIET. CLOSED, and NOT_NOW for one that doesn't hang; then
/// nothing changes.
#[unsafe(no_mangle)]
pub extern "C" fn kcas_signalled(alloc: Global, caller: &mut KcasCaller) -> u32
    ensures closed { HandleIsClosed caller.old → (result ≡ CLOSED) × (caller.new ≡ caller.old) }
    ensures stays { IsOpen caller.old → IsOpen caller.new }
    ensures hears { IsOpen caller.old → HangingHears caller.old.value.standing result caller.new.value.standing }
    ensures refused { IsOpen caller.old → result ≡ NOT_NOW → caller.new.value ≡ caller.old.value }
    ensures footprint { IsOpen caller.old → caller.new.value.footprint ≡ caller.old.value.footprint }
{
    if !caller.is_open() {
        return CLOSED;
    }
    let mut client = caller.take(alloc);
    let answer = client.signalled();
    caller.put(client);
    answer
}

/// Begins the leave of a caller that hangs, whose steps are still to be made: LEAVING. CLOSED, and NOT_NOW for one that doesn't hang or
/// hangs not yet; then nothing changes.
#[unsafe(no_mangle)]
pub extern "C" fn kcas_leave(alloc: Global, caller: &mut KcasCaller) -> u32
    ensures closed { HandleIsClosed caller.old → (result ≡ CLOSED) × (caller.new ≡ caller.old) }
    ensures stays { IsOpen caller.old → IsOpen caller.new }
    ensures leaves { IsOpen caller.old → HangingLeaves caller.old.value.standing result caller.new.value.standing }
    ensures refused { IsOpen caller.old → result ≡ NOT_NOW → caller.new.value ≡ caller.old.value }
    ensures footprint { IsOpen caller.old → caller.new.value.footprint ≡ caller.old.value.footprint }
{
    if !caller.is_open() {
        return CLOSED;
    }
    let mut client = caller.take(alloc);
    let answer = client.leave();
    caller.put(client);
    answer
}
