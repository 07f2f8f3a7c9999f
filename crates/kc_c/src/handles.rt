//! What C calls to open and close handles.

ghost use Rattle.std.specs.Prelude.{◌≡◌, ◌==◌, ◌<◌, ◌⊎◌, ◌↔◌, IsTrue, Some, false, true, if◌then◌else◌, length};
ghost use Rattle.kc_c.specs.Openings.{IsBadSize, OpensStore, number_of_error};
ghost use Rattle.kc_c.specs.Clients.{HandleIsClosed, IsOpen, some_open};
ghost use Rattle.kc_c.specs.Standings.{caller_number_in};
ghost use Rattle.kc_hang.specs.kc_machine.declared.machine.TheConstants.{MOST_CALLERS};
ghost use Rattle.kc_model.specs.declared.plain_store.TheConstants.{MOST_LOCATIONS};

use crate::answers::{BAD_SIZE, CLOSED, DONE, IS_OPEN, NO_MEMORY, NO_NUMBER};
use crate::handle::KcasCaller;
use crate::opening::{close_all, open_all, some_is_open};
use kc_model::{MOST_LOCATIONS, OpenError};
use std::alloc::Global;

// As many handles as a store has callers.
const MOST_HANDLES: usize = 64;

/// Opens a store with these values at its locations, and each handle as one of its callers, in order: DONE. Else nothing is opened:
/// BAD_SIZE above 65,536 values, for no handle and above 64, before any is looked at; IS_OPEN where one was open; then nothing changes.
/// NO_MEMORY, and all handles are closed.
#[unsafe(no_mangle)]
pub extern "C" fn kcas_open(alloc: Global, values: &[u32], callers: &mut [KcasCaller]) -> u32
    ensures size { IsBadSize values.now callers.old → (result ≡ BAD_SIZE) × (callers.new ≡ callers.old) }
    ensures is_open { ¬ IsBadSize values.now callers.old → some_open callers.old ≡ true → (result ≡ IS_OPEN) × (callers.new ≡ callers.old) }
    ensures opens { ¬ IsBadSize values.now callers.old → some_open callers.old ≡ false → OpensStore values.now result callers.new }
    ensures count { length callers.new ≡ length callers.old }
{
    if is_bad_size(values.len(), callers.len()) {
        return BAD_SIZE;
    }
    if some_is_open(callers) {
        return IS_OPEN;
    }
    match open_all(alloc, values, callers) {
        Ok(()) => DONE,
        Err(error) => {
            close_all(alloc, callers);
            number_of_error(error)
        }
    }
}

fn is_bad_size(values: usize, callers: usize) -> bool
    ensures { IsTrue result ↔ ((MOST_LOCATIONS < values) ⊎ ((callers ≡ 0) ⊎ (MOST_CALLERS < callers))) }
{
    values > MOST_LOCATIONS || callers == 0 || callers > MOST_HANDLES
}

fn number_of_error(error: OpenError) -> u32
    ensures { result ≡ number_of_error error }
{
    match error {
        OpenError::NoMemory => NO_MEMORY,
        OpenError::TooManyLocs | OpenError::TooManyCallers => BAD_SIZE,
    }
}

/// Closes the handle, whose caller is gone for good, and with the last one the store: DONE. CLOSED where it was closed.
#[unsafe(no_mangle)]
pub extern "C" fn kcas_close(alloc: Global, caller: &mut KcasCaller) -> u32
    ensures closed { HandleIsClosed caller.old → (result ≡ CLOSED) × (caller.new ≡ caller.old) }
    ensures closes { IsOpen caller.old → (result ≡ DONE) × HandleIsClosed caller.new }
{
    if !caller.is_open() {
        return CLOSED;
    }
    caller.close(alloc);
    DONE
}

/// Whether the handle is open: 1 or 0.
#[unsafe(no_mangle)]
pub extern "C" fn kcas_is_open(caller: &mut KcasCaller) -> u32
    ensures value { result ≡ (if caller.old.held == 1 then 1 else 0) }
    ensures same { caller.new ≡ caller.old }
{
    caller.is_open() as u32
}

/// The number of the handle's caller in its store, from 0 on, by which others' wakes name it; 0xFFFFFFFF where it is closed.
#[unsafe(no_mangle)]
pub extern "C" fn kcas_number(alloc: Global, caller: &mut KcasCaller) -> u32
    ensures closed { HandleIsClosed caller.old → (result ≡ NO_NUMBER) × (caller.new ≡ caller.old) }
    ensures number { IsOpen caller.old → caller_number_in caller.old.value.standing ≡ Some result }
    ensures same { IsOpen caller.old → IsOpen caller.new × (caller.new.value ≡ caller.old.value) }
{
    if !caller.is_open() {
        return NO_NUMBER;
    }
    let client = caller.take(alloc);
    let number = client.number;
    caller.put(client);
    number
}
