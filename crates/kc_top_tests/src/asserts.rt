//! What the tests have in common. Each kind of assertion is a function, since one in line costs seconds to prove, and a call a
//! fraction.

use kc_model::{FrailSink, FrailSource, MemShelf, Shelf, Sink, Source, SureSource};
use kc_top::{Gate, OpenGate, Served, Status, StoreName, kcas_main};
use std::alloc::Global;
use std::process::Abort;
use std::sync::Wait;
use std::sync::atomic::{AtomicU32, Ordering};
use std::test::Fail;
use std::thread::Threads;

/// More bytes than any text of a short script has.
pub(crate) const ROOM: usize = 4096;

/// The store options, in one word.
pub(crate) const STORES: [&str; 2] = ["--store=lock", "--store=kcas"];

/// A shelf without files.
pub(crate) fn no_files(alloc: Global) -> MemShelf {
    MemShelf::new(Vec::new(alloc), Vec::new(alloc))
}

/// What the words behind the program's name come to over a source, a shelf and a sink, and which store served.
pub(crate) fn call<S: Source, F: Shelf, K: Sink, G: Gate, R: Threads + Wait + Sync>(
    rt: &R,
    alloc: Global,
    behind: &[&str],
    source: &mut S,
    shelf: &mut F,
    sink: &mut K,
    gate: &G,
) -> Result<(Status, Option<StoreName>), Fail> {
    let mut words = Vec::new(alloc);
    words.push(String::from_str(alloc, "kcas")?)?;
    for word in behind {
        words.push(String::from_str(alloc, word)?)?;
    }
    let (status, served) = kcas_main(rt, alloc, &words, source, shelf, sink, gate);
    let store = match served {
        Served::Nothing => None,
        Served::Lock(_) => Some(StoreName::Lock),
        Served::Kcas(_) => Some(StoreName::Kcas),
    };
    Ok((status, store))
}

/// The status of these words on these bytes behind a gate, and what they wrote.
pub(crate) fn run_behind<R: Threads + Wait + Sync, G: Gate>(
    rt: &R,
    alloc: Global,
    behind: &[&str],
    script: &[u8],
    gate: &G,
) -> Result<(Status, Vec<u8>), Fail> {
    let mut source = FrailSource::new(script.to_vec(alloc)?, Vec::new(alloc));
    let mut sink = FrailSink::new(alloc, ROOM, Vec::new(alloc))?;
    let mut shelf = no_files(alloc);
    let (status, _) = call(rt, alloc, behind, &mut source, &mut shelf, &mut sink, gate)?;
    Ok((status, sink.bytes().to_vec(alloc)?))
}

/// The status of `kcas run` on these bytes, and what it wrote: the same with each store option and with none. So the
/// script has one thread, or one order.
pub(crate) fn run<R: Threads + Wait + Sync>(
    rt: &R,
    alloc: Global,
    script: &[u8],
) -> Result<(Status, Vec<u8>), Fail> {
    let (status, written) = run_behind(rt, alloc, &["run"], script, &OpenGate)?;
    for option in STORES {
        let (other, text) = run_behind(rt, alloc, &["run", option], script, &OpenGate)?;
        if other != status || text.as_slice() != written.as_slice() {
            return Err(Fail::from("the stores tell different things"));
        }
    }
    Ok((status, written))
}

/// The text of a script that is longer than the others, with a store option.
pub(crate) fn text_of<R: Threads + Wait + Sync>(
    rt: &R,
    alloc: Global,
    option: &str,
    script: &str,
) -> Result<(Status, Vec<u8>), Fail> {
    let mut source = SureSource::new(script.as_bytes().to_vec(alloc)?);
    let mut sink = FrailSink::new(alloc, 2_000_000, Vec::new(alloc))?;
    let mut shelf = no_files(alloc);
    let words = ["run", option];
    let (status, _) = call(
        rt,
        alloc,
        &words,
        &mut source,
        &mut shelf,
        &mut sink,
        &OpenGate,
    )?;
    Ok((status, sink.bytes().to_vec(alloc)?))
}

/// Asserts a status. What it was the status of is told where it is another.
pub(crate) fn ends(rt: &impl Abort, status: Status, want: Status, of: &str) {
    assert_eq!(rt; status, want, "{of}");
}

/// Asserts what was written.
pub(crate) fn says(rt: &impl Abort, written: &[u8], text: &str, of: &str) {
    assert_eq!(rt; written, text.as_bytes(), "{of}");
}

/// Asserts what was written, from its first byte on.
pub(crate) fn begins(rt: &impl Abort, written: &[u8], front: &str, of: &str) {
    assert!(rt; written.starts_with(front.as_bytes()), "{of}");
}

/// Asserts what was written, to its last byte.
pub(crate) fn closes(rt: &impl Abort, written: &[u8], end: &str, of: &str) {
    assert!(rt; written.ends_with(end.as_bytes()), "{of}");
}

/// Asserts a number.
pub(crate) fn is(rt: &impl Abort, number: usize, want: usize, of: &str) {
    assert_eq!(rt; number, want, "{of}");
}

/// Asserts that something holds.
pub(crate) fn holds(rt: &impl Abort, test: bool, of: &str) {
    assert!(rt; test, "{of}");
}

/// Asserts that a script is run to its end, on each store, and what its text is.
pub(crate) fn gives<R: Threads + Wait + Sync + Abort>(
    rt: &R,
    alloc: Global,
    script: &str,
    text: &str,
) -> Result<(), Fail> {
    let (status, written) = run(rt, alloc, script.as_bytes())?;
    ends(rt, status, Status::Done, script);
    says(rt, &written, text, script);
    Ok(())
}

/// Asserts so of each of these scripts.
pub(crate) fn all_give<R: Threads + Wait + Sync + Abort>(
    rt: &R,
    alloc: Global,
    rows: &[(&str, &str)],
) -> Result<(), Fail> {
    for (script, text) in rows {
        gives(rt, alloc, script, text)?;
    }
    Ok(())
}

/// Counts what it is told of.
#[derive(Drop)]
pub(crate) struct Counting {
    before: AtomicU32,
    after: AtomicU32,
}

impl Counting {
    pub(crate) fn new() -> Counting {
        Counting {
            before: AtomicU32::new(0),
            after: AtomicU32::new(0),
        }
    }

    /// Asserts that it was told of so many commands, before and behind each.
    pub(crate) fn counted(&self, rt: &impl Abort, commands: usize) {
        is(
            rt,
            self.before.load(Ordering::SeqCst) as usize,
            commands,
            "before",
        );
        is(
            rt,
            self.after.load(Ordering::SeqCst) as usize,
            commands,
            "after",
        );
    }
}

impl Gate for Counting {
    fn before(&self, _thread: u32, _number: u32) {
        self.before.fetch_add(1, Ordering::SeqCst);
    }

    fn after(&self, _thread: u32, _number: u32) {
        self.after.fetch_add(1, Ordering::SeqCst);
    }
}
