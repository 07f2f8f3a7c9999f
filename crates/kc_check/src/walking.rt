//! The places of a text in their order.

ghost use Rattle.std.specs.Prelude.{◌≡◌, ◌<◌, ◌≤◌, ◌↔◌, [], All, IfErr, IfOk, IsTrue, drop, length};
ghost use Rattle.std.specs.Io.BufRead.{take_through};
ghost use Rattle.kc_history.specs.Text.{bare_record, reply_line};
ghost use Rattle.kc_model.specs.Store.{store_of};
ghost use Rattle.kc_model.specs.declared.footprint.TheConstants.{LAST_VERSION, MOST};
ghost use Rattle.kc_script_bundle.specs.declared.bundle.TheConstants.{MOST_COMMANDS, MOST_THREADS};
ghost use Rattle.kc_check.specs.Ages.{IsYoung};
ghost use Rattle.kc_check.specs.Parts.{IsThreadPlace, said_at};
ghost use Rattle.kc_check.specs.Replays.{AllCanAsk, HaveRoom, commands_of};
ghost use Rattle.kc_check.specs.Walks.{ComesKept, StopsFor, lines_in};

use crate::error::CheckWhy;
use crate::lines::first_of;
use crate::matching::is_reply;
use crate::replaying::{Desk, replay_at};
use kc_history::{Head, Place, Records};
use kc_model::PlainStore;
use kc_script_bundle::Command;

/// Where a walk stopped: the index of the place, and why.
#[derive(Clone, Copy, Debug, PartialEq, Eq)]
pub(crate) struct Stopped {
    pub index: usize,
    pub why: CheckWhy,
}

// The line of a text that begins at a place; nothing past its end.
fn line_from(text: &[u8], start: usize) -> &[u8]
    ensures { result.now ≡ take_through 10 (drop start text.now) }
{
    if text.len() < start {
        return b"".as_slice();
    }
    let rest = &text[start..];
    match first_of(rest, b'\n') {
        Some(end) => &rest[..end + 1],
        None => rest,
    }
}

// What a text says of the record at a place: of an end nothing.
fn line_at<'a>(text: &'a [u8], replies: &[Vec<u32>], place: Place) -> &'a [u8]
    requires { place.thread < length replies.now }
    ensures { result.now ≡ said_at (lines_in text.now replies.now) place }
{
    let starts = &replies[place.thread as usize];
    match starts.get(place.index as usize).copied() {
        Some(start) => line_from(text, start as usize),
        None => b"",
    }
}

// Whether the text says what the record at a place replies, which has this head.
fn says(text: &[u8], replies: &[Vec<u32>], place: Place, head: &Head) -> bool
    requires { place.thread < length replies.now }
    ensures { IsTrue result ↔ (said_at (lines_in text.now replies.now) place ≡ reply_line (bare_record head.now)) }
{
    let line = line_at(text, replies, place);
    is_reply(line, head)
}

/// Replays the places, one after another, and keeps the footprints of their records. It stops at the first that is not the
/// next of its thread, or has to wait, or replies something else than the text says.
pub(crate) fn walk(
    threads: &[Vec<Command>],
    limit: u32,
    text: &[u8],
    replies: &[Vec<u32>],
    places: &[Place],
    store: &mut PlainStore,
    records: &mut [Records],
) -> Result<(), Stopped>
    requires can { AllCanAsk (length store.old) threads.now }
    requires some { 0 < length store.old }
    requires limit { (0 < limit) × (limit ≤ MOST) }
    requires few { length threads.now ≤ MOST_THREADS }
    requires commands { All (λ v. length v.items ≤ MOST_COMMANDS) threads.now }
    requires many { length replies.now ≡ length threads.now }
    requires places { All (IsThreadPlace (commands_of threads.now)) places.now }
    requires short { length places.now < LAST_VERSION }
    requires room { HaveRoom limit 1 (commands_of threads.now) records.old }
    requires empty { All (λ v. v.items ≡ []) records.old }
    requires young { IsYoung 0 (store_of store.old) }
    ensures comes { IfOk result (λ _. ComesKept limit (commands_of threads.now) (lines_in text.now replies.now) (store_of store.old) places.now (store_of store.new) records.new) }
    ensures stops { IfErr result (λ stop. StopsFor limit (commands_of threads.now) (lines_in text.now replies.now) (store_of store.old) places.now stop.index stop.why) }
    ensures size { length store.new ≡ length store.old }
{
    let mut desk = Desk::new();
    for i in 0..places.len() {
        let place = places[i];
        if place.index as usize != records[place.thread as usize].len() {
            return Err(Stopped {
                index: i,
                why: CheckWhy::Turn,
            });
        }
        if !replay_at(threads, limit, place, store, &mut desk, records, i as u32) {
            return Err(Stopped {
                index: i,
                why: CheckWhy::Waits,
            });
        }
        if !says(text, replies, place, &desk.head) {
            return Err(Stopped {
                index: i,
                why: CheckWhy::Reply,
            });
        }
    }
    Ok(())
}
