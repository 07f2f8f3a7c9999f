//! The program: `kcas run` reads a script from standard input, `kcas files SETUP FILE..` from files, and it writes the
//! script's text to standard output. `kcas check BUNDLE TEXT` says whether a text is that of a run of a script;
//! `kcas texts TEXTS PICKS` writes the picked ones of some texts.
#![tactic(auto)]

ghost use Rattle.std.specs.Prelude.{map};
ghost use Rattle.std.specs.String.{string_bytes};
ghost use Rattle.kcas.specs.Ends.{RunsOn};

#[cfg(test)]
mod asserts;
mod dir_shelf;
mod ends;
mod line;
#[cfg(test)]
mod tests;
mod words;

use dir_shelf::DirShelf;
use ends::{StdinSource, StdoutSink};
use kc_top::{OpenGate, Status, kcas_main};
use line::report;
use std::alloc::Global;
use std::io::{Read, Write};
use std::process::ExitCode;
use std::rt::Files;
use std::sync::Wait;
use std::thread::Threads;
use std::{env, io};
use words::words_of;

fn main(rt: HostRuntime) -> ExitCode {
    let alloc = rt.alloc();
    let mut source = StdinSource::new(rt.reader());
    let mut shelf = DirShelf::new(&rt);
    let mut sink = StdoutSink::new(io::writer(&rt));
    let status = match words_of(alloc, env::args(&rt)) {
        Ok(words) => run_on(&rt, alloc, &words, &mut source, &mut shelf, &mut sink),
        Err(status) => status,
    };
    report(&rt, status)
}

// Runs the words over the three ends; the status says what became of each.
fn run_on<I: Read + Drop, H: Files + Drop, O: Write + Drop, R: Threads + Wait + Sync>(
    rt: &R,
    alloc: Global,
    words: &[String],
    source: &mut StdinSource<I>,
    shelf: &mut DirShelf<H>,
    sink: &mut StdoutSink<O>,
) -> Status
    ensures { RunsOn I.remaining O.contents (map string_bytes words.now) source.old source.new shelf.old shelf.new sink.old sink.new result }
{
    let (status, _) = kcas_main(rt, alloc, words, source, shelf, sink, &OpenGate);
    status
}
