//! What stands in a store at one moment.

ghost use Rattle.std.specs.Prelude.{◌≡◌, ◌<◌, true, length};
ghost use Rattle.kc_hang.specs.kc_table_moves.Origins.{opening_of};
ghost use Rattle.kc_hang.specs.kc_table_views.Known.{IsPrefix, known};
ghost use Rattle.kc_lasting.specs.Cuts.{AllFrom, IsCut, IsKnownAt, IsLastAt, LooksOnceAt};
ghost use Rattle.kc_store.specs.Knows.{OnlyLearns, entries_of};
ghost use Rattle.kc_store.specs.kc_machine_traces.Histories.{entries};
ghost use Rattle.kc_store.specs.kc_table_laws.Tasks.{KeepsKnown};

use kc_model::{Loc, Seen};
use kc_store::{Caller, Note, Store};
use std::sync::Wait;

/// Reads all locations, again and again, until none has changed from one reading to the next. The cells are what stands then. What
/// the caller knows then is the note's: a history that is legal from the opening, and leaves just these cells.
pub(crate) fn cut<R: Wait>(
    rt: &R,
    store: &Store,
    caller: &mut Caller,
    cells: &mut [Seen],
    locations: u32,
) -> Note
    requires caller { caller.old.of ≡ store.now }
    requires size { length cells.old ≡ locations }
    requires locations { locations ≡ store.now.locations }
    ensures size { length cells.new ≡ length cells.old }
    ensures learns { OnlyLearns caller.old caller.new }
    ensures of { result.of ≡ store.now }
    ensures shows { result.known ≡ entries (known (opening_of store.now.table.origin) result.note.past) }
    ensures past { IsPrefix result.note.past caller.new.seat.past }
    ensures cut { IsCut store.now result.known cells.new }
    ensures own { entries_of caller.old.number result.known ≡ caller.old.own }
{
    'rounds: for _ in rt.forever() {
        read_all(rt, store, caller, cells, locations);
        let hint = store.note(caller);
        store.learn(caller, hint);
        let note = store.note(caller);
        caller.shows();
        if all_stand(rt, store, caller, cells, locations) {
            return note;
        }
    }
    unreachable!()
}

// Reads each location once.
fn read_all<R: Wait>(rt: &R, store: &Store, caller: &mut Caller, cells: &mut [Seen], locations: u32)
    requires caller { caller.old.of ≡ store.now }
    requires size { length cells.old ≡ locations }
    requires locations { locations ≡ store.now.locations }
    ensures size { length cells.new ≡ length cells.old }
    ensures learns { OnlyLearns caller.old caller.new }
    ensures known { AllFrom (IsKnownAt caller.new.seat) 0 cells.new }
{
    for at in 0..locations {
        let seen = look(rt, store, caller, Loc(at));
        cells[at as usize] = seen;
    }
}

// Whether each location stands at its version.
fn all_stand<R: Wait>(
    rt: &R,
    store: &Store,
    caller: &mut Caller,
    cells: &[Seen],
    locations: u32,
) -> bool
    requires caller { caller.old.of ≡ store.now }
    requires size { length cells.now ≡ locations }
    requires locations { locations ≡ store.now.locations }
    ensures learns { OnlyLearns caller.old caller.new }
    ensures last { result ≡ true → AllFrom (IsLastAt caller.old.seat) 0 cells.now }
{
    for at in 0..locations {
        let seen = look(rt, store, caller, Loc(at));
        if seen.version != cells[at as usize].version {
            return false;
        }
    }
    true
}

/// What stands at a location.
pub(crate) fn look<R: Wait>(rt: &R, store: &Store, caller: &mut Caller, at: Loc) -> Seen
    requires caller { caller.old.of ≡ store.now }
    requires within { at.0 < store.now.locations }
    ensures learns { OnlyLearns caller.old caller.new }
    ensures looks { LooksOnceAt at.0 caller.old.seat result caller.new.seat }
{
    'tries: for _ in rt.forever() {
        caller.shows();
        if let Ok(seen) = store.read(caller, at) {
            caller.shows();
            return seen;
        }
    }
    unreachable!()
}
