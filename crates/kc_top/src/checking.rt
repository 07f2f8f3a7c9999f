//! Whether a text is that of a run of a bundle, both of them from files.

ghost use Rattle.std.specs.Prelude.{◌≡◌, IfOk, IfErr};
ghost use Rattle.kc_top.specs.Checking.{CheckRefuses, IsAccepted};
ghost use Rattle.kc_top.specs.Statuses.{CheckEnds};

use crate::reading::fetch_both;
use crate::status::Status;
use kc_check::{CheckError, MOST_TEXT, check_text};
use kc_model::{Failed, Shelf, Sink, write_all};
use kc_script::parse;
use kc_script_lines::ScriptError;
use std::alloc::Global;

/// Checks the text in one file against the bundle in another, and writes `legal` where it is that of a run. Both are
/// read before the bundle is parsed.
pub fn check<F: Shelf, K: Sink>(
    alloc: Global,
    bundle: &str,
    text: &str,
    shelf: &mut F,
    sink: &mut K,
) -> Status
    ensures { CheckEnds K.written K.faults K.write_gives F.files F.faults F.sure F.fetch_gives bundle.now text.now shelf.old shelf.new sink.old sink.new result }
{
    if let Err(status) = accept(alloc, bundle, text, shelf) {
        return status;
    }
    match write_all(sink, b"legal\n") {
        Ok(()) => Status::Done,
        Err(Failed) => Status::WriteFault,
    }
}

// Reads both files, and accepts a text that is that of a run.
fn accept<F: Shelf>(alloc: Global, bundle: &str, text: &str, shelf: &mut F) -> Result<(), Status>
    ensures accepted { IfOk result (λ _. IsAccepted F.files F.faults F.sure F.fetch_gives bundle.now text.now shelf.old shelf.new) }
    ensures refuses { IfErr result (CheckRefuses F.files F.faults F.sure F.fetch_gives bundle.now text.now shelf.old shelf.new) }
{
    let (script, printed) = fetch_both(alloc, bundle, text, MOST_TEXT, shelf)?;
    let parsed = match parse(alloc, &script) {
        Ok(parsed) => parsed,
        Err(ScriptError::Fault { line, why }) => return Err(Status::Script { part: 0, line, why }),
        Err(ScriptError::NoMemory) => return Err(Status::NoMemory),
    };
    // A bundle has all of its script, whose bytes would take as much memory as the text.
    drop(script);
    match check_text(alloc, &parsed, &printed) {
        Ok(()) => Ok(()),
        Err(CheckError::Fault { line, why }) => Err(Status::Illegal { line, why }),
        Err(CheckError::NoMemory) => Err(Status::NoMemory),
    }
}
