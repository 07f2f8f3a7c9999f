//! The tests of a text in their order.

ghost use Rattle.std.specs.Prelude.{◌≡◌, ◌≤◌, ◌<◌, ◌+◌, ℕ, List, All, IfErr, IfOk, length};
ghost use Rattle.kc_history.specs.Counts.{records_in};
ghost use Rattle.kc_history.specs.Ends.{AreWellMade};
ghost use Rattle.kc_history.specs.Records.{footprint_at, lists_of};
ghost use Rattle.kc_model.specs.Store.{store_of};
ghost use Rattle.kc_model.specs.declared.footprint.TheConstants.{LAST_VERSION};
ghost use Rattle.kc_script_bundle.specs.Script.{script_of, names_of, CellsWithin};
ghost use Rattle.kc_script_runs.specs.Labels.{ThreadsHaveRecords};
ghost use Rattle.kc_script_runs.specs.Run.{opening_store};
ghost use Rattle.kc_check.specs.Ages.{IsYoung};
ghost use Rattle.kc_script.specs.Spells.{Spells};
ghost use Rattle.kc_check.specs.Faults.{FailsFor, FailsIn, IsFault, IsLegalText};
ghost use Rattle.kc_check.specs.Judged.{FailsWith, PartsAreSaid, IsReadyToReplay, parts_of, stop_number};
ghost use Rattle.kc_check.specs.Parts.{IsThreadPlace, commands_in, parts_text, places_in, reply_number};
ghost use Rattle.kc_check.specs.Replays.{AllCanAsk, commands_of};

use crate::error::{CheckError, CheckWhy};
use crate::holding::first_unlike;
use crate::numbers::{commands_in, places_in};
use crate::opening::{open_store, rooms, space_for};
use crate::ordering::first_disorder;
use crate::parting::read_text;
use crate::walking::{Stopped, walk};
use kc_history::{Place, Records, Room};
use kc_model::PlainStore;
use kc_script_bundle::{Bundle, Command, MOST_COMMANDS, MOST_THREADS, opening};
use std::alloc::Global;

/// How many bytes a text may have.
pub const MOST_TEXT: usize = 16_777_216;

/// What a text says: where the lines of the replies begin in it, thread by thread, the places of the order, and the lines
/// of the state.
#[derive(Drop)]
pub(crate) struct Said<'a> {
    pub replies: Vec<Vec<u32>>,
    pub places: Vec<Place>,
    pub state: Vec<&'a [u8]>,
}

/// Whether the text is that of some records that are a run of the bundle. The tests are made in this order: the form,
/// line by line; the places in their order, each of which has to be the next of its thread, may not wait, and replies
/// what its line says; the order; the state. The first that fails is the fault. All memory is taken before the
/// first test.
///
/// # Errors
///
/// The first test that the text fails, with the line where it does; there is one such line and test. A text that fails
/// one is that of no run. So memory aside the answer is `Ok` exactly where the text is that of a run, and a fault exactly
/// where a test fails.
pub fn check_text(alloc: Global, bundle: &Bundle, text: &[u8]) -> Result<(), CheckError>
    requires spelled { (bytes : List ℕ) × Spells bytes (script_of bundle.now) }
    requires short { length text.now ≤ MOST_TEXT }
    ensures legal { IfOk result (λ _. IsLegalText (script_of bundle.now) text.now) }
    ensures fault { IfErr result (FailsFor (script_of bundle.now) text.now) }
    ensures refuses { IfErr result (λ e. IsFault e → IsLegalText (script_of bundle.now) text.now → ⊥) }
{
    make_tests(alloc, bundle, text)
}

// All memory, and then the tests in their order.
fn make_tests(alloc: Global, bundle: &Bundle, text: &[u8]) -> Result<(), CheckError>
    requires spelled { (bytes : List ℕ) × Spells bytes (script_of bundle.now) }
    requires short { length text.now ≤ MOST_TEXT }
    ensures legal { IfOk result (λ _. IsLegalText (script_of bundle.now) text.now) }
    ensures fault { IfErr result (FailsFor (script_of bundle.now) text.now) }
{
    let values = opening(alloc, bundle)?;
    let mut store = open_store(alloc, &values)?;
    let mut records = rooms(alloc, &bundle.threads, bundle.limit)?;
    let count = places_in(&bundle.threads);
    let mut room = Room::open(alloc, bundle.threads.len() as u32, count)?;
    let mut said = space_for(alloc, bundle, count as usize)?;
    read_text(bundle, count as usize, text, &mut said)?;
    judge(bundle, text, &said, &mut store, &mut records, &mut room)
}

// The tests behind that of the form, in room that was taken before.
fn judge(
    bundle: &Bundle,
    text: &[u8],
    said: &Said,
    store: &mut PlainStore,
    records: &mut [Records],
    room: &mut Room,
) -> Result<(), CheckError>
    requires sound { IsReadyToReplay (script_of bundle.now) bundle.now.threads.items store.old records.old }
    requires said { PartsAreSaid (script_of bundle.now) (parts_of text.now said.now.replies.items said.now.places.items said.now.state.items) }
    requires threads { length records.old ≤ room.old.threads }
    requires room { places_in (script_of bundle.now).threads ≤ room.old.records }
    ensures legal { IfOk result (λ _. IsLegalText (script_of bundle.now) (parts_text (script_of bundle.now).threads (parts_of text.now said.now.replies.items said.now.places.items said.now.state.items))) }
    ensures fails { IfErr result (FailsWith (script_of bundle.now) (parts_of text.now said.now.replies.items said.now.places.items said.now.state.items)) }
{
    let commands = commands_in(&bundle.threads);
    if let Err(stopped) = walk(
        &bundle.threads,
        bundle.limit,
        text,
        &said.replies,
        &said.places,
        store,
        records,
    ) {
        let line = line_of(&bundle.threads, commands, &said.places, stopped);
        return Err(CheckError::Fault {
            line,
            why: stopped.why,
        });
    }
    if let Some(index) = first_disorder(records, &said.places, room) {
        let line = place_line(commands, index);
        return Err(CheckError::Fault {
            line,
            why: CheckWhy::Order,
        });
    }
    if let Some(index) = first_unlike(bundle, store, &said.state) {
        let line = state_line(commands, &said.places, index);
        return Err(CheckError::Fault {
            line,
            why: CheckWhy::State,
        });
    }
    Ok(())
}

// The line of what stopped a walk: of another reply that reply's, and else the place's.
fn line_of(threads: &[Vec<Command>], commands: u32, places: &[Place], stopped: Stopped) -> u32
    requires few { length threads.now ≤ MOST_THREADS }
    requires short { All (λ v. length v.items ≤ MOST_COMMANDS) threads.now }
    requires commands { commands ≡ commands_in (commands_of threads.now) }
    requires most { commands ≤ 65536 }
    requires places { All (IsThreadPlace (commands_of threads.now)) places.now }
    requires many { length places.now ≤ 65552 }
    requires index { stopped.index < length places.now }
    ensures { result ≡ stop_number (commands_of threads.now) places.now stopped.index stopped.why }
{
    match stopped.why {
        CheckWhy::Reply => reply_line(threads, places[stopped.index]),
        _ => place_line(commands, stopped.index),
    }
}

// The line of the reply of the command at a place.
fn reply_line(threads: &[Vec<Command>], place: Place) -> u32
    requires few { length threads.now ≤ MOST_THREADS }
    requires short { All (λ v. length v.items ≤ MOST_COMMANDS) threads.now }
    requires place { IsThreadPlace (commands_of threads.now) place }
    ensures { result ≡ reply_number (commands_of threads.now) place }
{
    let before = commands_in(&threads[..place.thread as usize]);
    before + place.index + 1
}

// The line of the place at an index, behind so many replies.
fn place_line(commands: u32, index: usize) -> u32
    requires commands { commands ≤ 65536 }
    requires index { index ≤ 65552 }
    ensures { result ≡ commands + index + 2 }
{
    commands + index as u32 + 2
}

// The line of the object at an index, behind so many replies and these places.
fn state_line(commands: u32, places: &[Place], index: usize) -> u32
    requires commands { commands ≤ 65536 }
    requires places { length places.now ≤ 65552 }
    requires index { index ≤ 65536 }
    ensures { result ≡ commands + length places.now + index + 3 }
{
    commands + places.len() as u32 + index as u32 + 3
}
