//! Calls of the top call, and what is asserted of them. Each kind of assertion is a function, since one in line costs seconds to
//! prove, and a call a fraction.

ghost use Rattle.std.specs.Prelude.{IsTrue};
ghost use Rattle.kc_model.specs.Forms.{are_calls};

use kc_model::{FrailSink, FrailSource, MemShelf, Shelf, Sink, Source};
use kc_top::{OpenGate, Served, Status, StoreName, kcas_main};
use std::alloc::Global;
use std::process::Abort;
use std::sync::Wait;
use std::test::Fail;
use std::thread::Threads;

// More bytes than any text of these scripts has.
const ROOM: usize = 4096;

// What the words behind the program's name come to over a source, a shelf and a sink, and which store served.
pub(crate) fn call<S: Source, F: Shelf, K: Sink, R: Threads + Wait + Sync>(
    rt: &R,
    alloc: Global,
    behind: &[&str],
    source: &mut S,
    shelf: &mut F,
    sink: &mut K,
) -> Result<(Status, Option<StoreName>), Fail> {
    let mut words = vec![in alloc; String::from_str(alloc, "kcas")?]?;
    for word in behind {
        words.push(String::from_str(alloc, word)?)?;
    }
    let (status, served) = kcas_main(rt, alloc, &words, source, shelf, sink, &OpenGate);
    let store = match served {
        Served::Nothing => None,
        Served::Lock(_) => Some(StoreName::Lock),
        Served::Kcas(_) => Some(StoreName::Kcas),
    };
    Ok((status, store))
}

// A shelf of these files, and of fetches that fail.
pub(crate) fn shelf(
    alloc: Global,
    files: &[(&str, &str)],
    failing: Vec<u64>,
) -> Result<MemShelf, Fail>
    requires { IsTrue (are_calls failing.items) }
{
    let mut kept = Vec::new(alloc);
    for file in files {
        kept.push((
            String::from_str(alloc, file.0)?,
            file.1.as_bytes().to_vec(alloc)?,
        ))?;
    }
    Ok(MemShelf::new(kept, failing))
}

// The status of these words behind the program's name, over a shelf and a source that fails at once, and what was written.
pub(crate) fn run_over<R: Threads + Wait + Sync>(
    rt: &R,
    alloc: Global,
    words: &[&str],
    shelf: &mut MemShelf,
) -> Result<(Status, Vec<u8>), Fail> {
    let mut source = FrailSource::new(Vec::new(alloc), vec![in alloc; 1]?);
    let mut sink = FrailSink::new(alloc, ROOM, Vec::new(alloc))?;
    let (status, _) = call(rt, alloc, words, &mut source, shelf, &mut sink)?;
    Ok((status, sink.bytes().to_vec(alloc)?))
}

// The same over these files.
pub(crate) fn run_files<R: Threads + Wait + Sync>(
    rt: &R,
    alloc: Global,
    words: &[&str],
    files: &[(&str, &str)],
) -> Result<(Status, Vec<u8>), Fail> {
    let mut shelf = shelf(alloc, files, Vec::new(alloc))?;
    run_over(rt, alloc, words, &mut shelf)
}

// Asserts a status.
pub(crate) fn ends(rt: &impl Abort, status: Status, want: Status) {
    assert_eq!(rt; status, want);
}

// The same, of a text which is told where the status is another.
pub(crate) fn ends_of(rt: &impl Abort, status: Status, want: Status, text: &str) {
    assert_eq!(rt; status, want, "{text}");
}

// Asserts what was written.
pub(crate) fn says(rt: &impl Abort, written: &[u8], text: &[u8]) {
    assert_eq!(rt; written, text);
}

// Asserts that something holds.
pub(crate) fn holds(rt: &impl Abort, test: bool) {
    assert!(rt; test);
}
