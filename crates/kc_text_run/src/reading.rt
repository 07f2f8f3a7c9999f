//! From texts and picks to what is read of them.

ghost use Rattle.std.specs.Prelude.{◌≡◌, ◌≤◌, ◌<◌, ◌++◌, All, IfOk, length};
ghost use Rattle.kc_text.specs.declared.texts.TheConstants.{MOST_TEXTS};
ghost use Rattle.kc_text_run.specs.Picking.{AreTextsOf, WereReadByTwo};

use crate::both::read_both;
use crate::opening::{blank_lines, open_for_two};
use kc_model::{Loc, NoMemory};
use kc_run::KcasPast;
use kc_text::{Text, TextPool, Texts};
use std::alloc::Global;
use std::sync::Wait;
use std::thread::Threads;

/// What two threads read, and what is left of their store.
#[derive(Drop)]
pub struct ReadPicks {
    /// By the first thread.
    pub front: Vec<Text>,
    /// By the second.
    pub back: Vec<Text>,
    pub past: KcasPast,
}

/// Opens a store of zeros and a pool of the texts, and reads the picks by two threads. All memory but what the start of a thread
/// takes is taken before they start.
///
/// # Errors
///
/// Want of memory
pub fn read_by_two<R: Threads + Wait + Sync>(
    rt: &R,
    alloc: Global,
    texts: Vec<Text>,
    picks: &[u32],
) -> Result<ReadPicks, NoMemory>
    requires some { 1 ≤ length texts.items }
    requires few { length texts.items ≤ MOST_TEXTS }
    requires picks { All (λ k. (1 ≤ k) × (k ≤ length texts.items)) picks.now }
    ensures lines { IfOk result (λ r. AreTextsOf texts.items picks.now (r.front.items ++ r.back.items)) }
    ensures past { IfOk result (λ r. WereReadByTwo (length texts.items) picks.now r.past) }
{
    let layout = Texts::layout(Loc(0), 2, texts.len() as u32);
    let half = picks.len() / 2;
    let (Ok(front), Ok(back)) = (
        blank_lines(alloc, half),
        blank_lines(alloc, picks.len() - half),
    ) else {
        return Err(NoMemory);
    };
    let Ok(pool) = TextPool::open(alloc, texts) else {
        return Err(NoMemory);
    };
    let (store, first, second, room) = open_for_two(alloc, &layout)?;
    let (front, back, past) = read_both(
        rt, store, first, second, room, &pool, &layout, picks, front, back,
    );
    Ok(ReadPicks { front, back, past })
}
