//! From the words and the bytes to the text.

ghost use Rattle.std.specs.Prelude.{◌≡◌, Some, map, IfOk, IfErr};
ghost use Rattle.std.specs.String.{string_bytes};
ghost use Rattle.kc_script_bundle.specs.Script.{script_of};
ghost use Rattle.kc_top.specs.Words.{origin_of};
ghost use Rattle.kc_top.specs.Reading.{ReadsScript, Refuses};
ghost use Rattle.kc_top.specs.Statuses.{RunSays, StatusSays};

use crate::checking::check;
use crate::command_line::{Command, Origin, command_of, store_of};
use crate::picking::pick;
use crate::reading::{from_files, from_source};
use crate::run::perform;
use crate::served::Served;
use crate::status::Status;
use kc_model::{Failed, NoMemory, Shelf, Sink, Source};
use kc_run::Gate;
use kc_script_bundle::Bundle;
use kc_script_storm::storm;
use std::alloc::Global;
use std::sync::Wait;
use std::thread::Threads;

/// Runs the script that the words name, and writes its text to the sink. The words have the program's name first, and
/// then a command: `run` reads the script from the source, `files SETUP FILE..` from the shelf, a file for each thread;
/// `storm N` runs the storm of that number, and writes its summary in place of a text. `check BUNDLE TEXT` reads a bundle
/// and a text from the shelf, and writes `legal` where the text is that of a run of the bundle. `texts TEXTS PICKS` reads
/// texts and the numbers of picked ones, a line for each, and writes the picked texts.
/// All is read before it is parsed. Each thread of the script runs in a thread of its own, behind the gate, on one
/// store: the one that a store option directly behind the command names, `--store lock` or `--store kcas`, and else the
/// lock-free one. A thread's command may wait for another's, and nothing is promised of when it ends.
pub fn kcas_main<S: Source, F: Shelf, K: Sink, G: Gate, R: Threads + Wait + Sync>(
    rt: &R,
    alloc: Global,
    words: &[String],
    source: &mut S,
    shelf: &mut F,
    sink: &mut K,
    gate: &G,
) -> (Status, Served)
    ensures { StatusSays S.left S.faults S.read_gives F.files F.faults F.sure F.fetch_gives K.written K.faults K.write_gives (map string_bytes words.now) source.old source.new shelf.old shelf.new sink.old sink.new result.1 result.0 }
{
    match command_of(words) {
        None => (Status::Usage, Served::Nothing),
        Some(Command::Run(origin)) => run(rt, alloc, words, origin, source, shelf, sink, gate),
        Some(Command::Check) => {
            let status = check(alloc, words[2].as_str(), words[3].as_str(), shelf, sink);
            (status, Served::Nothing)
        }
        Some(Command::Texts) => {
            pick(rt, alloc, words[2].as_str(), words[3].as_str(), shelf, sink)
        }
    }
}

fn run<S: Source, F: Shelf, K: Sink, G: Gate, R: Threads + Wait + Sync>(
    rt: &R,
    alloc: Global,
    words: &[String],
    origin: Origin,
    source: &mut S,
    shelf: &mut F,
    sink: &mut K,
    gate: &G,
) -> (Status, Served)
    requires { origin_of (map string_bytes words.now) ≡ Some origin }
    ensures { RunSays S.left S.faults S.read_gives F.files F.faults F.sure F.fetch_gives K.written K.faults K.write_gives (map string_bytes words.now) origin source.old source.new shelf.old shelf.new sink.old sink.new result.1 result.0 }
{
    let bundle = match read_bundle(alloc, words, origin, source, shelf) {
        Ok(bundle) => bundle,
        Err(status) => return (status, Served::Nothing),
    };
    match perform(rt, alloc, store_of(words), origin, &bundle, sink, gate) {
        Ok((Ok(()), served)) => (Status::Done, served),
        Ok((Err(Failed), served)) => (Status::WriteFault, served),
        Err(NoMemory) => (Status::NoMemory, Served::Nothing),
    }
}

fn read_bundle<S: Source, F: Shelf>(
    alloc: Global,
    words: &[String],
    origin: Origin,
    source: &mut S,
    shelf: &mut F,
) -> Result<Bundle, Status>
    requires { origin_of (map string_bytes words.now) ≡ Some origin }
    ensures reads { IfOk result (λ bundle. ReadsScript S.left S.faults S.read_gives F.files F.faults F.sure F.fetch_gives (map string_bytes words.now) origin source.old source.new shelf.old shelf.new (script_of bundle)) }
    ensures refuses { IfErr result (Refuses S.left S.faults S.read_gives F.files F.faults F.sure F.fetch_gives (map string_bytes words.now) origin source.old source.new shelf.old shelf.new) }
{
    match origin {
        Origin::Source => from_source(alloc, source),
        Origin::Files { setup } => from_files(alloc, shelf, &words[setup..]),
        Origin::Storm { number } => Ok(storm(alloc, number)?),
    }
}
