//! Reading line by line.

ghost use Rattle.std.specs.Prelude.{◌≡◌, ◌≤◌, ◌<◌, ◌+◌, length, map, reverse, All, None, IfOk, OnOk};
ghost use Rattle.kc_script_bundle.specs.Script.{script_of, names_of};
ghost use Rattle.kc_script_lines.specs.Words.{lines};
ghost use Rattle.kc_script_lines.specs.Gives.{Arrives, Reaches};
ghost use Rattle.kc_script_verbs.specs.Objects.{object_of};
ghost use Rattle.kc_script_verbs.specs.Declaring.{IsAt};
ghost use Rattle.kc_script.specs.Blocks.{in_block};
ghost use Rattle.kc_script.specs.Version.{knows_limit, version_of, limit_of, has_kind, word_in};
ghost use Rattle.kc_script.specs.Reading.{reader_state, opening_state, with_object, closed, begun_thread, next_thread, no_block, at_new_place, declared_line, said_line, begun_block, thread_line, can_limit, limit_line, unknown_line, worded_line, header_line, content_line, any_line, reading_ended, script_at, atomics_behind, atomics_after, atomics_next, nearest_line, at_line, read_from, part_read, spelled, files_read, parts_read, spelled_parts, of_part, in_a_part, complained, ReadingComes, ReadingEnds, Spelled, PartComes, PartsSpelled};

use crate::blocks::{atomic_line, begin_thread, end_line, in_block, op_line, or_line};
use crate::parser::MOST_BYTES;
use crate::part_error::PartError;
use crate::reader::{FIRST_LIMIT, Reader, Version};
use indexmap::IndexMap;
use kc_model::MOST;
use kc_script_bundle::{Bundle, MOST_THREADS, cells};
use kc_script_lines::{
    Complaint, Limit, ScriptError, Why, counted, first_line, is_skipped, positive_to, split_into,
    wants, word_at,
};
use kc_script_verbs::{Kind, Verb, Word, declare, say, word_of};
use std::alloc::{AllocError, Global};
use std::mem;

#[tactic(auto, unfolding(kc_script_bundle::specs::Script::next_from))]
fn open(alloc: Global, whole: bool) -> Reader
    ensures { reader_state result ≡ opening_state whole }
{
    Reader {
        alloc,
        whole,
        begun: false,
        version: Version::Old,
        objects: IndexMap::new(alloc),
        next: 1,
        threads: Vec::new(alloc),
        thread: None,
        place: begin_thread(alloc),
    }
}

#[tactic(auto, unfolding(crate::specs::Reading::declared_line))]
fn declared_line(reader: &mut Reader, kind: Kind, args: &[&[u8]]) -> Result<(), Complaint>
    ensures { Reaches (reader_state reader.new) result (declared_line (reader_state reader.old) kind (map (λ word. word.now) args.now)) }
{
    wants(reader.thread.is_none(), Why::StrayWord)?;
    let object = declare(reader.alloc, &mut reader.objects, reader.next, kind, args)?;
    reader.next += cells(object);
    Ok(())
}

#[tactic(auto, unfolding(crate::specs::Reading::said_line))]
fn said_line(reader: &mut Reader, verb: Verb, args: &[&[u8]]) -> Result<(), Complaint>
    ensures { Reaches (reader_state reader.new) result (said_line (reader_state reader.old) verb (map (λ word. word.now) args.now)) }
{
    let Some(thread) = reader.thread else {
        return Err(Complaint::Here(Why::StrayWord));
    };
    let operation = say(thread, &reader.objects, verb, args)?;
    op_line(&mut reader.place, operation)
}

#[tactic(auto, unfolding(crate::specs::Reading::begun_block))]
fn begun_block(reader: &mut Reader, args: &[&[u8]]) -> Result<(), Complaint>
    ensures { Reaches (reader_state reader.new) result (begun_block (reader_state reader.old) (map (λ word. word.now) args.now)) }
{
    if reader.thread.is_none() {
        return Err(Complaint::Here(Why::StrayWord));
    }
    atomic_line(reader.alloc, &mut reader.place, args)
}

// Puts the commands of the open thread, where there is one, behind the threads.
fn close_thread(reader: &mut Reader) -> Result<(), AllocError>
    ensures { OnOk result (reader_state reader.new ≡ closed (reader_state reader.old)) }
{
    let place = mem::replace(&mut reader.place, begin_thread(reader.alloc));
    if reader.thread.is_some() {
        reader.threads.push(place.here)?;
    }
    Ok(())
}

// Begins the thread of this number.
fn begun_thread(reader: &mut Reader, thread: u32) -> Result<(), AllocError>
    requires { thread < MOST_THREADS }
    ensures { OnOk result (reader_state reader.new ≡ begun_thread (reader_state reader.old) thread) }
{
    close_thread(reader)?;
    reader.thread = Some(thread);
    Ok(())
}

fn no_block(reader: &Reader) -> Result<(), Why>
    ensures { result ≡ no_block (reader_state reader.now) }
{
    wants(!in_block(&reader.place), Why::UnclosedBlock)
}

// The number of the thread that begins next.
fn next_thread(reader: &Reader) -> u32
    ensures { result ≡ next_thread (reader_state reader.now).thread }
{
    match reader.thread {
        None => 0,
        Some(thread) => thread + 1,
    }
}

#[tactic(auto, unfolding(crate::specs::Reading::thread_line))]
fn thread_line(reader: &mut Reader, args: &[&[u8]]) -> Result<(), Complaint>
    ensures { Reaches (reader_state reader.new) result (thread_line (reader_state reader.old) (map (λ word. word.now) args.now)) }
{
    no_block(reader)?;
    wants(reader.whole, Why::StrayWord)?;
    counted(0, args)?;
    let thread = next_thread(reader);
    wants(thread < MOST_THREADS as u32, Why::TooMany(Limit::Threads))?;
    begun_thread(reader, thread)?;
    Ok(())
}

// Whether this word is that of a limit. It is no word of version 1.
fn knows_limit(version: Version, word: &[u8]) -> bool
    ensures { result ≡ knows_limit version word.now }
{
    word == b"limit".as_slice()
        && match version {
            Version::Old => false,
            _ => true,
        }
}

// Whether the limit can stand here, directly behind the header.
fn can_limit(reader: &Reader) -> bool
    ensures { result ≡ can_limit (reader_state reader.now) }
{
    reader.thread.is_none()
        && reader.objects.is_empty()
        && match reader.version {
            Version::New => true,
            _ => false,
        }
}

#[tactic(auto, unfolding(crate::specs::Reading::limit_line))]
fn limit_line(reader: &mut Reader, args: &[&[u8]]) -> Result<(), Why>
    ensures { Arrives (reader_state reader.new) result (limit_line (reader_state reader.old) (map (λ word. word.now) args.now)) }
{
    wants(can_limit(reader), Why::StrayWord)?;
    counted(1, args)?;
    let limit = positive_to(MOST as u32, word_at(args, 0))?;
    reader.version = Version::Limited(limit);
    Ok(())
}

// A line whose first word is no other.
#[tactic(auto, unfolding(crate::specs::Reading::unknown_line))]
fn unknown_line(reader: &mut Reader, first: &[u8], args: &[&[u8]]) -> Result<(), Why>
    ensures { Arrives (reader_state reader.new) result (unknown_line (reader_state reader.old) first.now (map (λ word. word.now) args.now)) }
{
    wants(knows_limit(reader.version, first), Why::UnknownWord)?;
    limit_line(reader, args)
}

// Whether the version has this kind of objects. The first has no table that grows.
fn has_kind(version: Version, kind: Kind) -> bool
    ensures { result ≡ has_kind version kind }
{
    match version {
        Version::Old => match kind {
            Kind::Grow => false,
            _ => true,
        },
        _ => true,
    }
}

// The word that begins a line, where the version has it.
fn word_in(version: Version, word: Option<Word>) -> Option<Word>
    ensures { result ≡ word_in version word }
{
    match word {
        Some(Word::Declare(kind)) => { if has_kind(version, kind) { word } else { None } }
        _ => word,
    }
}

// What a header with this word says.
fn version_of(word: &[u8]) -> Option<Version>
    ensures { result ≡ version_of word.now }
{
    if word == b"1".as_slice() {
        Some(Version::Old)
    } else if word == b"2".as_slice() {
        Some(Version::New)
    } else {
        None
    }
}

// The limit of the commands.
fn limit_of(version: Version) -> u32
    ensures { result ≡ limit_of version }
{
    match version {
        Version::Limited(limit) => limit,
        Version::New => MOST as u32,
        Version::Old => FIRST_LIMIT,
    }
}

#[tactic(auto, unfolding(crate::specs::Reading::worded_line))]
fn worded_line(
    reader: &mut Reader,
    first: &[u8],
    word: Option<Word>,
    args: &[&[u8]],
) -> Result<(), Complaint>
    ensures { Reaches (reader_state reader.new) result (worded_line (reader_state reader.old) first.now word (map (λ word. word.now) args.now)) }
{
    match word {
        None => {
            unknown_line(reader, first, args)?;
            Ok(())
        }
        Some(Word::Thread) => thread_line(reader, args),
        Some(Word::Atomic) => begun_block(reader, args),
        Some(Word::Or) => or_line(reader.alloc, &mut reader.place, args),
        Some(Word::End) => end_line(reader.alloc, &mut reader.place, args),
        Some(Word::Declare(kind)) => declared_line(reader, kind, args),
        Some(Word::Say(verb)) => said_line(reader, verb, args),
    }
}

#[tactic(auto, unfolding(crate::specs::Reading::header_line))]
fn header_line(reader: &mut Reader, words: &[&[u8]]) -> Result<(), Why>
    ensures { Arrives (reader_state reader.new) result (header_line (reader_state reader.old) (map (λ word. word.now) words.now)) }
{
    wants(words.len() == 2, Why::Header)?;
    wants(word_at(words, 0) == b"kcas".as_slice(), Why::Header)?;
    let Some(version) = version_of(word_at(words, 1)) else {
        return Err(Why::Header);
    };
    reader.begun = true;
    reader.version = version;
    Ok(())
}

// Keeps the lines of the blocks that are open, behind a line that begins with this word.
fn keep_atomics(atomics: &mut Vec<u32>, line: u32, word: Option<Word>) -> Result<(), AllocError>
    ensures { OnOk result (reverse atomics.new.items ≡ atomics_behind (reverse atomics.old.items) line word) }
{
    match word {
        Some(Word::Atomic) => atomics.push(line)?,
        Some(Word::End) => {
            atomics.pop();
        }
        _ => {}
    }
    Ok(())
}

#[tactic(auto, unfolding(crate::specs::Reading::content_line))]
fn content_line(
    reader: &mut Reader,
    atomics: &mut Vec<u32>,
    line: u32,
    words: &[&[u8]],
) -> Result<(), Complaint>
    ensures state { Reaches (reader_state reader.new) result (content_line (reader_state reader.old) (map (λ word. word.now) words.now)) }
    ensures atomics { OnOk result (reverse atomics.new.items ≡ atomics_after reader.old.begun (reverse atomics.old.items) line (map (λ word. word.now) words.now)) }
{
    match words {
        [] => Err(Complaint::Here(Why::UnknownWord)),
        [first, args @ ..] => {
            if reader.begun {
                let word = word_of(first);
                worded_line(reader, first, word_in(reader.version, word), args)?;
                keep_atomics(atomics, line, word)?;
            } else {
                header_line(reader, words)?;
            }
            Ok(())
        }
    }
}

#[tactic(auto, unfolding(crate::specs::Reading::any_line))]
fn any_line(
    reader: &mut Reader,
    atomics: &mut Vec<u32>,
    line: u32,
    words: &[&[u8]],
) -> Result<(), Complaint>
    ensures state { Reaches (reader_state reader.new) result (any_line (reader_state reader.old) (map (λ word. word.now) words.now)) }
    ensures atomics { OnOk result (reverse atomics.new.items ≡ atomics_next reader.old.begun (reverse atomics.old.items) line (map (λ word. word.now) words.now)) }
{
    if is_skipped(words) {
        return Ok(());
    }
    content_line(reader, atomics, line, words)
}

// The line of the innermost block that is open.
fn nearest(atomics: &[u32]) -> u32
    ensures { result ≡ nearest_line (reverse atomics.now) }
{
    atomics.last().copied().unwrap_or(0)
}

// An unclosed block has the line of its `atomic`, any other fault the line that is read.
fn complained(nearest: u32, line: u32, complaint: Complaint) -> ScriptError
    ensures { result ≡ complained nearest line complaint }
{
    match complaint {
        Complaint::Here(Why::UnclosedBlock) => ScriptError::Fault {
            line: nearest,
            why: Why::UnclosedBlock,
        },
        Complaint::Here(why) => ScriptError::Fault { line, why },
        Complaint::NoMemory => ScriptError::NoMemory,
    }
}

fn text_line(
    reader: &mut Reader,
    atomics: &mut Vec<u32>,
    line: u32,
    words: &[&[u8]],
) -> Result<(), ScriptError>
    ensures state { ReadingComes (reader_state reader.new) result (at_line (nearest_line (reverse atomics.old.items)) line (any_line (reader_state reader.old) (map (λ word. word.now) words.now))) }
    ensures atomics { OnOk result (reverse atomics.new.items ≡ atomics_next reader.old.begun (reverse atomics.old.items) line (map (λ word. word.now) words.now)) }
{
    let nearest = nearest(atomics);
    match any_line(reader, atomics, line, words) {
        Ok(()) => Ok(()),
        Err(complaint) => Err(complained(nearest, line, complaint)),
    }
}

// Reads the lines in turn. They are numbered from 1.
fn all_lines(reader: &mut Reader, atomics: &mut Vec<u32>, bytes: &[u8]) -> Result<(), ScriptError>
    requires { length bytes.now ≤ MOST_BYTES }
    ensures { ReadingEnds (reader_state reader.new) (reverse atomics.new.items) result (read_from (reader_state reader.old) (reverse atomics.old.items) 1 (lines bytes.now)) }
{
    let mut found = Vec::new(reader.alloc);
    let mut line = 0;
    let mut left = Some(bytes);
    while let Some(here) = left {
        let (text, rest) = first_line(here);
        line += 1;
        split_into(text, &mut found)?;
        text_line(reader, atomics, line, &found)?;
        left = rest;
    }
    Ok(())
}

// The lines have ended.
#[tactic(auto, unfolding(crate::specs::Reading::reading_ended))]
fn ended(reader: &Reader) -> Result<(), Why>
    ensures { Arrives (reader_state reader.now) result (reading_ended (reader_state reader.now)) }
{
    wants(reader.begun, Why::Header)?;
    no_block(reader)
}

// Reads a part to its end.
#[tactic(auto, unfolding(crate::specs::Reading::part_read))]
fn read_part(reader: &mut Reader, bytes: &[u8]) -> Result<(), ScriptError>
    requires { length bytes.now ≤ MOST_BYTES }
    ensures { ReadingComes (reader_state reader.new) result (part_read (reader_state reader.old) bytes.now) }
{
    let mut atomics = Vec::new(reader.alloc);
    all_lines(reader, &mut atomics, bytes)?;
    match ended(reader) {
        Ok(()) => Ok(()),
        Err(why) => Err(complained(nearest(&atomics), 1, Complaint::Here(why))),
    }
}

// The bundle that was read.
fn bundle_of(mut reader: Reader) -> Result<Bundle, AllocError>
    ensures { IfOk result (λ bundle. script_of bundle ≡ script_at (reader_state reader)) }
{
    close_thread(&mut reader)?;
    let limit = limit_of(reader.version);
    Ok(Bundle {
        limit,
        objects: reader.objects,
        threads: reader.threads,
    })
}

/// The bundle that the bytes spell, or what is wrong with them.
#[tactic(auto, unfolding(crate::specs::Reading::spelled))]
pub fn read(alloc: Global, bytes: &[u8]) -> Result<Bundle, ScriptError>
    requires { length bytes.now ≤ MOST_BYTES }
    ensures { Spelled script_of result (spelled bytes.now) }
{
    let mut reader = open(alloc, true);
    read_part(&mut reader, bytes)?;
    Ok(bundle_of(reader)?)
}

fn in_a_part(part: u32, error: ScriptError) -> PartError
    ensures { result ≡ in_a_part part error }
{
    match error {
        ScriptError::Fault { line, why } => PartError::Fault { part, line, why },
        ScriptError::NoMemory => PartError::NoMemory,
    }
}

// Reads the part of this number.
fn read_numbered(reader: &mut Reader, part: u32, bytes: &[u8]) -> Result<(), PartError>
    requires { length bytes.now ≤ MOST_BYTES }
    ensures { PartComes (reader_state reader.new) result (of_part part (part_read (reader_state reader.old) bytes.now)) }
{
    match read_part(reader, bytes) {
        Ok(()) => Ok(()),
        Err(error) => Err(in_a_part(part, error)),
    }
}

// Reads the files in turn, a thread each.
fn all_files(reader: &mut Reader, files: &[Vec<u8>]) -> Result<(), PartError>
    requires files { All (λ file. length file.items ≤ MOST_BYTES) files.now }
    requires few { length files.now ≤ MOST_THREADS }
    ensures { PartComes (reader_state reader.new) result (files_read (reader_state reader.old) 0 (map (λ file. file.items) files.now)) }
{
    let mut thread = 0;
    for file in files {
        begun_thread(reader, thread)?;
        thread += 1;
        read_numbered(reader, thread, file)?;
    }
    Ok(())
}

/// The bundle that a setup and files spell, or what is wrong with them.
#[tactic(auto, unfolding(crate::specs::Reading::parts_read, crate::specs::Reading::spelled_parts))]
pub fn read_parts(alloc: Global, setup: &[u8], files: &[Vec<u8>]) -> Result<Bundle, PartError>
    requires setup { length setup.now ≤ MOST_BYTES }
    requires files { All (λ file. length file.items ≤ MOST_BYTES) files.now }
    requires few { length files.now ≤ MOST_THREADS }
    ensures { PartsSpelled script_of result (spelled_parts setup.now (map (λ file. file.items) files.now)) }
{
    let mut reader = open(alloc, false);
    read_numbered(&mut reader, 0, setup)?;
    all_files(&mut reader, files)?;
    Ok(bundle_of(reader)?)
}
