//! From what a command reads to a bundle, or to the bytes of two files.

ghost use Rattle.std.specs.Prelude.{◌≤◌, length, map, IfOk, IfErr};
ghost use Rattle.std.specs.String.{string_bytes};
ghost use Rattle.kc_script_bundle.specs.Script.{script_of};
ghost use Rattle.kc_top.specs.Reading.{BothRefuse, FetchedBoth, FetchedFile, FileRefuses, SourceSpells, SourceRefuses, FilesSpell, FilesRefuse};

use crate::status::Status;
use kc_model::{ReadError, Shelf, ShelfError, Source, fetch_all, read_to_end};
use kc_script::{MOST_BYTES, PartError, parse, parse_parts};
use kc_script_bundle::Bundle;
use kc_script_lines::ScriptError;
use std::alloc::Global;

/// The bundle that the source spells, read to its end.
pub fn from_source<S: Source>(alloc: Global, source: &mut S) -> Result<Bundle, Status>
    ensures spells { IfOk result (λ bundle. SourceSpells S.left S.faults S.read_gives source.old source.new (script_of bundle)) }
    ensures refuses { IfErr result (SourceRefuses S.left S.faults S.read_gives source.old source.new) }
{
    let bytes = match read_to_end(alloc, source, MOST_BYTES) {
        Ok(bytes) => bytes,
        Err(ReadError::Failed) => return Err(Status::ReadFault),
        Err(ReadError::TooLong) => return Err(Status::TooLong),
        Err(ReadError::NoMemory) => return Err(Status::NoMemory),
    };
    match parse(alloc, &bytes) {
        Ok(bundle) => Ok(bundle),
        Err(ScriptError::Fault { line, why }) => Err(Status::Script { part: 0, line, why }),
        Err(ScriptError::NoMemory) => Err(Status::NoMemory),
    }
}

/// The bundle that the files of these names spell, all of them read before any is parsed. The first is the setup.
pub fn from_files<F: Shelf>(
    alloc: Global,
    shelf: &mut F,
    names: &[String],
) -> Result<Bundle, Status>
    requires some { 2 ≤ length names.now }
    requires few { length names.now ≤ 17 }
    ensures spells { IfOk result (λ bundle. FilesSpell F.files F.faults F.sure F.fetch_gives (map string_bytes names.now) shelf.old shelf.new (script_of bundle)) }
    ensures refuses { IfErr result (FilesRefuse F.files F.faults F.sure F.fetch_gives (map string_bytes names.now) shelf.old shelf.new) }
{
    let files = match fetch_all(alloc, shelf, names, MOST_BYTES) {
        Ok(files) => files,
        Err(ShelfError::Failed) => return Err(Status::ReadFault),
        Err(ShelfError::TooLong) => return Err(Status::TooLong),
        Err(ShelfError::NoMemory) => return Err(Status::NoMemory),
    };
    match parse_parts(alloc, &files[0], &files[1..]) {
        Ok(bundle) => Ok(bundle),
        Err(PartError::Fault { part, line, why }) => Err(Status::Script { part, line, why }),
        Err(PartError::NoMemory) => Err(Status::NoMemory),
    }
}

/// Two files, one after the other: the first has the limit of a bundle, the second one of its own.
pub fn fetch_both<F: Shelf>(
    alloc: Global,
    first: &str,
    second: &str,
    limit: usize,
    shelf: &mut F,
) -> Result<(Vec<u8>, Vec<u8>), Status>
    ensures both { IfOk result (λ r. FetchedBoth F.files F.faults F.sure F.fetch_gives limit first.now second.now shelf.old r.0.items r.1.items shelf.new) }
    ensures refuse { IfErr result (BothRefuse F.files F.faults F.sure F.fetch_gives limit first.now second.now shelf.old shelf.new) }
{
    let one = fetch_file(alloc, shelf, first, MOST_BYTES)?;
    let other = fetch_file(alloc, shelf, second, limit)?;
    Ok((one, other))
}

// The file of this name, by one call.
fn fetch_file<F: Shelf>(
    alloc: Global,
    shelf: &mut F,
    name: &str,
    limit: usize,
) -> Result<Vec<u8>, Status>
    ensures fetched { IfOk result (λ bytes. FetchedFile F.files F.faults F.sure F.fetch_gives limit shelf.old name.now bytes.items shelf.new) }
    ensures refuses { IfErr result (FileRefuses F.files F.faults F.sure F.fetch_gives limit shelf.old name.now shelf.new) }
{
    match shelf.fetch(alloc, name, limit) {
        Ok(bytes) => Ok(bytes),
        Err(ShelfError::Failed) => Err(Status::ReadFault),
        Err(ShelfError::TooLong) => Err(Status::TooLong),
        Err(ShelfError::NoMemory) => Err(Status::NoMemory),
    }
}
