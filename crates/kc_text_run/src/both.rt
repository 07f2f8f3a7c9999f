//! Two callers on threads, each of which reads a half of the picks.

ghost use Rattle.std.specs.Prelude.{◌≡◌, ◌≤◌, ◌<◌, ◌++◌, [], length, All, vec_capacity};
ghost use Rattle.kc_text.specs.Meaning.{IsText, texts_cells_end};
ghost use Rattle.kc_text_run.specs.Picking.{AddsPicks, AreTextsOf, IsForTwo, IsFresh, IsPastOfPicks, first_half, second_half};

use crate::picking::read_picks;
use kc_run::KcasPast;
use kc_store::{Caller, Store};
use kc_text::{Text, TextPool, Texts};
use std::sync::Wait;
use std::thread;
use std::thread::Threads;

// One caller's picks, and what it read.
fn read_half<R: Wait>(
    rt: &R,
    store: &Store,
    mut caller: Caller,
    pool: &TextPool,
    texts: &Texts,
    place: u32,
    picks: &[u32],
    mut lines: Vec<Text>,
) -> (Caller, Vec<Text>)
    requires caller { caller.of ≡ store.now }
    requires pool { length pool.now ≡ texts.now.texts }
    requires place { place < texts.now.places }
    requires picks { All (IsText texts.now) picks.now }
    requires within { texts_cells_end texts.now ≤ store.now.locations }
    requires same { length lines.items ≡ length picks.now }
    ensures of { result.0.of ≡ store.now }
    ensures number { result.0.number ≡ caller.number }
    ensures lines { AreTextsOf pool.now picks.now result.1.items }
    ensures own { AddsPicks texts.now place picks.now caller result.0 }
{
    read_picks(
        rt,
        store,
        &mut caller,
        pool,
        texts,
        place,
        picks,
        lines.as_mut_slice(),
    );
    (caller, lines)
}

/// Two callers take the first and the second half of the picks, each on a thread and at a place of its own; where their
/// number is odd, the second half has one more. It takes no memory: `room` is for the callers when they come back.
pub fn read_both<R: Threads + Wait + Sync>(
    rt: &R,
    store: Store,
    first: Caller,
    second: Caller,
    mut room: Vec<Caller>,
    pool: &TextPool,
    texts: &Texts,
    picks: &[u32],
    front_lines: Vec<Text>,
    back_lines: Vec<Text>,
) -> (Vec<Text>, Vec<Text>, KcasPast)
    requires store { IsForTwo texts.now store }
    requires first { IsFresh store 0 first }
    requires second { IsFresh store 1 second }
    requires room { (room.items ≡ []) × (2 ≤ vec_capacity room) }
    requires pool { length pool.now ≡ texts.now.texts }
    requires places { 2 ≤ texts.now.places }
    requires picks { All (IsText texts.now) picks.now }
    requires front { length front_lines.items ≡ length (first_half picks.now) }
    requires back { length back_lines.items ≡ length (second_half picks.now) }
    ensures lines { AreTextsOf pool.now picks.now (result.0.items ++ result.1.items) }
    ensures past { IsPastOfPicks texts.now picks.now result.2 }
{
    let (front, back) = picks.split_at(picks.len() / 2);
    let shared = &store;
    let ((first, front_lines), (second, back_lines)) = thread::join(
        rt,
        move || read_half(rt, shared, first, pool, texts, 0, front, front_lines),
        move || read_half(rt, shared, second, pool, texts, 1, back, back_lines),
    );
    room.push_reserved(first);
    room.push_reserved(second);
    (front_lines, back_lines, KcasPast::of(store.finish(room)))
}
