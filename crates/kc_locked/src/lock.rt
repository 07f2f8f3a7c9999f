//! The lock: a word of the table. Who takes it has the slot, and who finds it taken sleeps on it at last. Beside it lies the word on
//! which those sleep that wait for a change.
ghost use Rattle.std.specs.Prelude.{◌≡◌, ◌<◌, [], true, false};
ghost use Rattle.kc_history.specs.Callers.{record_entry};
ghost use Rattle.kc_locked.specs.Locked.{HoldsLock, Taken, committed, free_view, entered_by};

use crate::held::Waits;
use crate::rule::{Commits, Gives, Knows, Memory, Notes, Takes, Token};
use kc_model::Footprint;
use kc_xt::rest;
use std::sync::Wait;

const LOCK: usize = 0;

/// The word that a waiting transaction sleeps on. It is odd while one may wait for a change, and a change raises it then.
pub(crate) const CHANGES: usize = 1;

// What the lock may be: taken, or taken while others may sleep until it is free.
const FREE: u64 = 0;

const TAKEN: u64 = 1;

const AWAITED: u64 = 2;

// How often the processor pauses before it looks again whether the lock is free.
const PAUSES: [u32; 4] = [64, 128, 256, 512];

/// That one has the lock. It can't be let go: `give` alone takes it back.
#[must_use]
pub(crate) struct Key(());

/// Takes what lies in the slot. Who finds the lock taken pauses, so that who has it goes on with the store at hand, and sleeps at
/// last.
#[inline(always)]
pub(crate) fn take<K: Knows, R: Wait>(rt: &R, memory: &Memory, token: &mut Token) -> Key
    requires table { (token.old.table_id ≡ memory.now.table_id) × (memory.now.table_id.words ≡ 2) }
    requires key { memory.now.key ≡ K.origin }
    ensures table { token.new.table_id ≡ token.old.table_id }
    ensures taken { Taken K.origin token.old.me token.new.me }
{
    if !try_take::<K>(memory, token, TAKEN) && !try_again::<K>(memory, token, TAKEN) {
        take_asleep::<K, R>(rt, memory, token);
    }
    Key(())
}

// Takes the lock with this word where it is free.
#[inline(always)]
fn try_take<K: Knows>(memory: &Memory, token: &mut Token, word: u64) -> bool
    requires table { (token.old.table_id ≡ memory.now.table_id) × (memory.now.table_id.words ≡ 2) }
    requires key { memory.now.key ≡ K.origin }
    requires word { 0 < word }
    ensures table { token.new.table_id ≡ token.old.table_id }
    ensures taken { result ≡ true → Taken K.origin token.old.me token.new.me }
    ensures missed { result ≡ false → token.new.me ≡ token.old.me }
{
    memory.compare_exchange::<Takes<K>>(token, LOCK, FREE, word) == FREE
}

// Tries again and again, after more pauses each time.
#[inline(never)]
fn try_again<K: Knows>(memory: &Memory, token: &mut Token, word: u64) -> bool
    requires table { (token.old.table_id ≡ memory.now.table_id) × (memory.now.table_id.words ≡ 2) }
    requires key { memory.now.key ≡ K.origin }
    requires word { 0 < word }
    ensures table { token.new.table_id ≡ token.old.table_id }
    ensures taken { result ≡ true → Taken K.origin token.old.me token.new.me }
    ensures missed { result ≡ false → token.new.me ≡ token.old.me }
{
    for pauses in PAUSES {
        rest(pauses);
        if try_take::<K>(memory, token, word) {
            return true;
        }
    }
    false
}

// Sleeps until it has the lock. Others may sleep too, so that who gives it back has to wake one of them.
#[inline(never)]
fn take_asleep<K: Knows, R: Wait>(rt: &R, memory: &Memory, token: &mut Token)
    requires table { (token.old.table_id ≡ memory.now.table_id) × (memory.now.table_id.words ≡ 2) }
    requires key { memory.now.key ≡ K.origin }
    ensures table { token.new.table_id ≡ token.old.table_id }
    ensures taken { Taken K.origin token.old.me token.new.me }
{
    for _ in rt.forever() {
        if memory.swap::<Takes<K>>(token, LOCK, AWAITED) == FREE {
            return;
        }
        memory.park(rt, LOCK, AWAITED as u32);
        if try_again::<K>(memory, token, AWAITED) {
            return;
        }
    }
    unreachable!()
}

/// Gives it back, with the commit if one was made.
pub(crate) fn give<C: Commits>(
    memory: &Memory,
    token: &mut Token,
    key: Key,
    caller: u32,
    number: u64,
    _footprint: &Footprint,
    _entered: Result<(), Waits>,
)
    requires table { (token.old.table_id ≡ memory.now.table_id) × (memory.now.table_id.words ≡ 2) }
    requires made { C.made ≡ entered_by _entered (record_entry caller number _footprint.now) }
    requires holds { HoldsLock C.made token.old.me }
    ensures table { token.new.table_id ≡ token.old.table_id }
    ensures gave { token.new.me ≡ (free_view (committed token.old.me.0.parts C.made), []) }
{
    let Key(()) = key;
    if memory.swap::<Gives<C>>(token, LOCK, FREE) == AWAITED {
        memory.wake_one(LOCK);
    }
}

/// While one has the lock: notes that one waits for a change, and says what the word is until then.
pub(crate) fn note_wait(memory: &Memory, token: &mut Token, _key: &Key) -> u32
    requires table { (token.old.table_id ≡ memory.now.table_id) × (memory.now.table_id.words ≡ 2) }
    ensures { (token.new.table_id ≡ token.old.table_id) × (token.new.me ≡ token.old.me) }
{
    let until = memory.peek(CHANGES) | 1;
    memory.store::<Notes>(token, CHANGES, until);
    (until % (1 << 32)) as u32
}

/// While one has the lock: notes a change. Says whether some may sleep, who are to be woken once the lock is free.
pub(crate) fn note_change(memory: &Memory, token: &mut Token, _key: &Key) -> bool
    requires table { (token.old.table_id ≡ memory.now.table_id) × (memory.now.table_id.words ≡ 2) }
    ensures { (token.new.table_id ≡ token.old.table_id) × (token.new.me ≡ token.old.me) }
{
    let now = memory.peek(CHANGES);
    let are_some = now % 2 == 1;
    if are_some {
        memory.store::<Notes>(token, CHANGES, now.wrapping_add(1));
    }
    are_some
}
