//! What C calls to read beside transactions.

ghost use Rattle.std.specs.Prelude.{◌≡◌, ◌≤◌, ◌<◌, ◌++◌, false, true, drop, length, map, min, take};
ghost use Rattle.kc_c.specs.Clients.{HandleIsClosed, IsOpen};
ghost use Rattle.kc_c.specs.Reads.{IsReadByCaller, read_told};
ghost use Rattle.kc_c.specs.Standings.{rests};

use crate::answers::{BAD_OPS, CLOSED, NOT_NOW};
use crate::handle::KcasCaller;
use crate::reading::{KcasSeen, copy_reads};
use std::alloc::Global;

/// What stands at a location, with its version, read without a transaction: DONE. BUSY where it was given up. CLOSED; NOT_NOW for one
/// that hangs; BAD_OPS for a location that the store doesn't have. But at DONE the value and the version stay as they were.
#[unsafe(no_mangle)]
pub extern "C" fn kcas_read(
    alloc: Global,
    caller: &mut KcasCaller,
    location: u32,
    value: &mut u32,
    version: &mut u32,
) -> u32
    ensures closed { HandleIsClosed caller.old → (result ≡ CLOSED) × (caller.new ≡ caller.old) × (value.new ≡ value.old) × (version.new ≡ version.old) }
    ensures stays { IsOpen caller.old → IsOpen caller.new }
    ensures not_now { IsOpen caller.old → rests caller.old.value.standing ≡ false → (result ≡ NOT_NOW) × (caller.new.value ≡ caller.old.value) × (value.new ≡ value.old) × (version.new ≡ version.old) }
    ensures outside { IsOpen caller.old → rests caller.old.value.standing ≡ true → caller.old.value.locations ≤ location → (result ≡ BAD_OPS) × (caller.new.value ≡ caller.old.value) × (value.new ≡ value.old) × (version.new ≡ version.old) }
    ensures read { IsOpen caller.old → rests caller.old.value.standing ≡ true → location < caller.old.value.locations → IsReadByCaller location caller.old.value result caller.new.value value.old version.old value.new version.new }
{
    if !caller.is_open() {
        return CLOSED;
    }
    let mut client = caller.take(alloc);
    let answer = client.read(location, value, version);
    caller.put(client);
    answer
}

/// What the last try read, in rising order of location: the first of these reads are written, as many as there is room for. It
/// answers how many, 0 for a handle that is closed.
#[unsafe(no_mangle)]
pub extern "C" fn kcas_reads(
    alloc: Global,
    caller: &mut KcasCaller,
    reads: &mut [KcasSeen],
) -> usize
    ensures closed { HandleIsClosed caller.old → (result ≡ 0) × (caller.new ≡ caller.old) × (reads.new ≡ reads.old) }
    ensures same { IsOpen caller.old → IsOpen caller.new × (caller.new.value ≡ caller.old.value) }
    ensures count { IsOpen caller.old → result ≡ min (length caller.old.value.footprint.reads.items) (length reads.old) }
    ensures written { IsOpen caller.old → reads.new ≡ map read_told (take result caller.old.value.footprint.reads.items) ++ drop result reads.old }
{
    if !caller.is_open() {
        return 0;
    }
    let client = caller.take(alloc);
    let count = copy_reads(client.footprint.reads.as_slice(), reads);
    caller.put(client);
    count
}
