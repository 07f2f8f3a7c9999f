//! Texts that are picked.

ghost use Rattle.std.specs.Prelude.{◌≤◌};

use crate::calling::{call, ends, ends_of, holds, run_files, run_over, says, shelf};
use kc_model::{FrailSink, FrailSource, MemShelf};
use kc_script_lines::{Limit, Why};
use kc_top::{Status, StoreName};
use std::alloc::Global;
use std::sync::Wait;
use std::test::Fail;
use std::thread::Threads;

const WORDS: [&str; 3] = ["texts", "T", "P"];

// The most bytes that a file may have.
const MOST_BYTES: usize = 1_048_576;

// The most texts that a file may have.
const MOST_TEXTS: usize = 4_096;

// The most picks that a file may have.
const MOST_PICKS: usize = 65_536;

// What the picks among the texts come to over a source that fails at once: the status, which store served, and what was
// written.
fn pick<R: Threads + Wait + Sync>(
    rt: &R,
    alloc: Global,
    texts: &[u8],
    picks: &[u8],
) -> Result<(Status, Option<StoreName>, Vec<u8>), Fail> {
    let mut source = FrailSource::new(Vec::new(alloc), vec![in alloc; 1]?);
    let mut files = vec![in alloc; (String::from_str(alloc, "T")?, texts.to_vec(alloc)?)]?;
    files.push((String::from_str(alloc, "P")?, picks.to_vec(alloc)?))?;
    let mut shelf = MemShelf::new(files, Vec::new(alloc));
    let mut sink = FrailSink::new(alloc, 2 * MOST_PICKS, Vec::new(alloc))?;
    let (status, store) = call(rt, alloc, &WORDS, &mut source, &mut shelf, &mut sink)?;
    Ok((status, store, sink.bytes().to_vec(alloc)?))
}

#[test]
fn picked_texts_are_written_in_the_order_of_the_picks(rt: HostRuntime) -> Result<(), Fail> {
    let longest = "0123456789abcdef0123456789abcdef0123456789abcdef0123456789abcdef";
    let rows = [
        (
            "red\ngreen\nblue\n",
            "3\n1\n3\n2\n",
            "blue\nred\nblue\ngreen\n",
        ),
        ("red\ngreen\nblue", "3\n1\n3", "blue\nred\nblue\n"),
        ("red\n", "0000000001", "red\n"),
        ("\n\r\n", "1\n2\n1\n", "\n\r\n\n"),
        (
            longest,
            "1\n",
            "0123456789abcdef0123456789abcdef0123456789abcdef0123456789abcdef\n",
        ),
    ];
    for (texts, picks, lines) in rows {
        let (status, store, written) = pick(&rt, rt.alloc(), texts.as_bytes(), picks.as_bytes())?;
        ends_of(&rt, status, Status::Done, texts);
        holds(&rt, store == Some(StoreName::Kcas));
        says(&rt, &written, lines.as_bytes());
    }
    Ok(())
}

#[test]
fn no_pick_writes_nothing_and_opens_no_store(rt: HostRuntime) -> Result<(), Fail> {
    for texts in ["", "red\n"] {
        let (status, store, written) = pick(&rt, rt.alloc(), texts.as_bytes(), b"")?;
        ends(&rt, status, Status::Done);
        holds(&rt, store.is_none());
        says(&rt, &written, b"");
    }
    Ok(())
}

#[test]
fn the_first_fault_is_told_and_that_of_texts_first(rt: HostRuntime) -> Result<(), Fail> {
    let long = "0123456789abcdef0123456789abcdef0123456789abcdef0123456789abcdef!\n";
    let behind = "red\n0123456789abcdef0123456789abcdef0123456789abcdef0123456789abcdef!";
    let too_long = Why::TooMany(Limit::TextBytes);
    let rows = [
        ("red\ngreen\nblue\n", "4\n", 2, 1, Why::BadNumber),
        ("red\n", "0\n", 2, 1, Why::BadNumber),
        ("red\n", "1\n1 \n", 2, 2, Why::BadNumber),
        ("red\n", "1\n\n1\n", 2, 2, Why::BadNumber),
        ("red\n", "1\r\n", 2, 1, Why::BadNumber),
        ("red\n", "00000000001\n", 2, 1, Why::BadNumber),
        ("", "1\n", 2, 1, Why::BadNumber),
        (long, "x\n", 1, 1, too_long),
        (behind, "", 1, 2, too_long),
    ];
    for (texts, picks, part, line, why) in rows {
        let (status, store, written) = pick(&rt, rt.alloc(), texts.as_bytes(), picks.as_bytes())?;
        ends_of(&rt, status, Status::Script { part, line, why }, texts);
        holds(&rt, store.is_none());
        says(&rt, &written, b"");
    }
    Ok(())
}

// The same line so many times.
fn lines(alloc: Global, line: &str, count: usize) -> Result<Vec<u8>, Fail>
    requires { count ≤ 100000 }
{
    let mut bytes = Vec::new(alloc);
    for _ in 0..count {
        bytes.extend_from_slice(line.as_bytes())?;
    }
    Ok(bytes)
}

#[test]
fn the_last_text_and_the_last_pick_that_fit_are_written(rt: HostRuntime) -> Result<(), Fail> {
    let alloc = rt.alloc();
    let texts = lines(alloc, "a\n", MOST_TEXTS)?;
    let picks = lines(alloc, "4096\n", MOST_PICKS)?;
    let (status, store, written) = pick(&rt, alloc, &texts, &picks)?;
    ends(&rt, status, Status::Done);
    holds(&rt, store == Some(StoreName::Kcas));
    let whole = lines(alloc, "a\n", MOST_PICKS)?;
    says(&rt, &written, &whole);
    Ok(())
}

#[test]
fn one_more_is_refused_before_what_else_is_wrong_with_it(rt: HostRuntime) -> Result<(), Fail> {
    let alloc = rt.alloc();
    let long = "0123456789abcdef0123456789abcdef0123456789abcdef0123456789abcdef!\n";
    for line in ["a\n", long] {
        let mut texts = lines(alloc, "a\n", MOST_TEXTS)?;
        texts.extend_from_slice(line.as_bytes())?;
        let (status, _, _) = pick(&rt, alloc, &texts, b"x\n")?;
        let fault = Status::Script {
            part: 1,
            line: 4_097,
            why: Why::TooMany(Limit::Texts),
        };
        ends(&rt, status, fault);
    }
    for line in ["1\n", "x"] {
        let mut picks = lines(alloc, "1\n", MOST_PICKS)?;
        picks.extend_from_slice(line.as_bytes())?;
        let (status, _, _) = pick(&rt, alloc, b"red\n", &picks)?;
        let fault = Status::Script {
            part: 2,
            line: 65_537,
            why: Why::TooMany(Limit::Picks),
        };
        ends(&rt, status, fault);
    }
    Ok(())
}

#[test]
fn both_files_are_read_before_either_is_taken_apart(rt: HostRuntime) -> Result<(), Fail> {
    let alloc = rt.alloc();
    let rows: [&[(&str, &str)]; 3] = [&[], &[("T", "red\n")], &[("P", "1\n")]];
    for files in rows {
        let (status, written) = run_files(&rt, alloc, &WORDS, files)?;
        ends(&rt, status, Status::ReadFault);
        says(&rt, &written, b"");
    }
    Ok(())
}

// The status where the files have so many bytes: of texts all newlines, of picks one number.
fn pick_long<R: Threads + Wait + Sync>(
    rt: &R,
    alloc: Global,
    texts: usize,
    picks: usize,
) -> Result<Status, Fail> {
    let newlines = vec![in alloc; b'\n'; texts]?;
    let mut files = vec![in alloc; (String::from_str(alloc, "T")?, newlines)]?;
    files.push((String::from_str(alloc, "P")?, vec![in alloc; b'1'; picks]?))?;
    let mut shelf = MemShelf::new(files, Vec::new(alloc));
    let (status, _) = run_over(rt, alloc, &WORDS, &mut shelf)?;
    Ok(status)
}

#[test]
fn each_file_has_the_same_limit(rt: HostRuntime) -> Result<(), Fail> {
    let texts = Status::Script {
        part: 1,
        line: 4_097,
        why: Why::TooMany(Limit::Texts),
    };
    let picks = Status::Script {
        part: 2,
        line: 1,
        why: Why::BadNumber,
    };
    let rows = [
        (MOST_BYTES, MOST_BYTES, texts),
        (1, MOST_BYTES, picks),
        (MOST_BYTES + 1, 0, Status::TooLong),
        (MOST_BYTES, MOST_BYTES + 1, Status::TooLong),
    ];
    for (texts, picks, status) in rows {
        let found = pick_long(&rt, rt.alloc(), texts, picks)?;
        ends(&rt, found, status);
    }
    Ok(())
}

// The status where one fetch and one write fail, and what was written of 200 picks.
fn pick_failing<R: Threads + Wait + Sync>(
    rt: &R,
    alloc: Global,
    failing_fetch: u64,
    failing_write: u64,
) -> Result<(Status, Vec<u8>), Fail>
    requires fetch { (1 ≤ failing_fetch) × (failing_fetch ≤ 9) }
    requires write { (1 ≤ failing_write) × (failing_write ≤ 99) }
{
    let mut source = FrailSource::new(Vec::new(alloc), vec![in alloc; 1]?);
    let mut picks = String::new(alloc);
    for _ in 0..100 {
        picks.push_str("2\n1\n")?;
    }
    let files = [("T", "red\ngreen\n"), ("P", picks.as_str())];
    let mut shelf = shelf(alloc, &files, vec![in alloc; failing_fetch]?)?;
    let mut sink = FrailSink::new(alloc, 1_000, vec![in alloc; failing_write]?)?;
    let (status, store) = call(rt, alloc, &WORDS, &mut source, &mut shelf, &mut sink)?;
    let is_served = matches!(status, Status::Done | Status::WriteFault);
    if is_served != store.is_some() {
        return Err(Fail::from("a store is served where something was written"));
    }
    Ok((status, sink.bytes().to_vec(alloc)?))
}

#[test]
fn each_fetch_and_each_write_of_picks_may_fail(rt: HostRuntime) -> Result<(), Fail> {
    let alloc = rt.alloc();
    let whole = lines(alloc, "green\nred\n", 100)?;
    for call in 1..3 {
        let (status, written) = pick_failing(&rt, alloc, call, 99)?;
        ends(&rt, status, Status::ReadFault);
        says(&rt, &written, b"");
    }
    for call in [1, 2, 40, 63] {
        let (status, written) = pick_failing(&rt, alloc, 3, call)?;
        ends(&rt, status, Status::WriteFault);
        holds(
            &rt,
            written.len() < whole.len() && whole.starts_with(&written),
        );
    }
    let (status, written) = pick_failing(&rt, alloc, 3, 64)?;
    ends(&rt, status, Status::Done);
    says(&rt, &written, &whole);
    Ok(())
}
