//! The texts of one file that another file picks.

ghost use Rattle.std.specs.Prelude.{◌≤◌, All, length, IfOk, IfErr};
ghost use Rattle.kc_text.specs.declared.texts.TheConstants.{MOST_TEXTS};
ghost use Rattle.kc_top.specs.Picking.{AreRead, PicksEnd, PicksRefuse};

use crate::reading::fetch_both;
use crate::served::Served;
use crate::status::Status;
use kc_model::{Failed, Shelf, Sink};
use kc_script::MOST_BYTES;
use kc_script_lines::ScriptError;
use kc_text::Text;
use kc_text_files::{picks_of, texts_of};
use kc_text_run::{read_by_two, write_lines};
use std::alloc::Global;
use std::sync::Wait;
use std::thread::Threads;

/// Writes the picked ones of the texts in one file, in the order of the picks in another, each with a newline. Both are
/// read before either is taken apart. Two callers on threads read the texts where they lie; where there is no pick, no
/// store is opened.
pub fn pick<F: Shelf, K: Sink, R: Threads + Wait + Sync>(
    rt: &R,
    alloc: Global,
    texts: &str,
    picks: &str,
    shelf: &mut F,
    sink: &mut K,
) -> (Status, Served)
    ensures { PicksEnd F.files F.faults F.sure F.fetch_gives texts.now picks.now K.written K.faults K.write_gives shelf.old shelf.new sink.old sink.new result.1 result.0 }
{
    let (texts, picks) = match texts_and_picks(alloc, texts, picks, shelf) {
        Ok(read) => read,
        Err(status) => return (status, Served::Nothing),
    };
    if picks.is_empty() {
        return (Status::Done, Served::Nothing);
    }
    let Ok(read) = read_by_two(rt, alloc, texts, &picks) else {
        return (Status::NoMemory, Served::Nothing);
    };
    match write_lines(&read.front, &read.back, sink) {
        Ok(()) => (Status::Done, Served::Kcas(read.past)),
        Err(Failed) => (Status::WriteFault, Served::Kcas(read.past)),
    }
}

// The texts of one file, and the picks of the other.
fn texts_and_picks<F: Shelf>(
    alloc: Global,
    texts: &str,
    picks: &str,
    shelf: &mut F,
) -> Result<(Vec<Text>, Vec<u32>), Status>
    ensures read { IfOk result (λ r. AreRead F.files F.faults F.sure F.fetch_gives texts.now picks.now shelf.old shelf.new r.0.items r.1.items) }
    ensures few { IfOk result (λ r. length r.0.items ≤ MOST_TEXTS) }
    ensures within { IfOk result (λ r. All (λ k. (1 ≤ k) × (k ≤ length r.0.items)) r.1.items) }
    ensures refuses { IfErr result (PicksRefuse F.files F.faults F.sure F.fetch_gives texts.now picks.now shelf.old shelf.new) }
{
    let (texts_file, picks_file) = fetch_both(alloc, texts, picks, MOST_BYTES, shelf)?;
    let texts = match texts_of(alloc, &texts_file) {
        Ok(texts) => texts,
        Err(ScriptError::Fault { line, why }) => return Err(Status::Script { part: 1, line, why }),
        Err(ScriptError::NoMemory) => return Err(Status::NoMemory),
    };
    match picks_of(alloc, texts.len() as u32, &picks_file) {
        Ok(picks) => Ok((texts, picks)),
        Err(ScriptError::Fault { line, why }) => Err(Status::Script { part: 2, line, why }),
        Err(ScriptError::NoMemory) => Err(Status::NoMemory),
    }
}
