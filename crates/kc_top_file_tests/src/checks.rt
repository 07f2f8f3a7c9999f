//! Texts that are checked.

ghost use Rattle.std.specs.Prelude.{◌≤◌};

use crate::calling::{call, ends, ends_of, holds, run_files, run_over, says, shelf};
use kc_model::{FrailSink, FrailSource, MemShelf};
use kc_script_lines::Why;
use kc_top::{CheckWhy, Status};
use std::alloc::Global;
use std::sync::Wait;
use std::test::Fail;
use std::thread::Threads;

const WORDS: [&str; 3] = ["check", "B", "T"];

const FIRST: &str = "kcas 1\nloc x 5\nthread\nget x\nset x 7\nadd x 1\n";

const FIRST_TEXT: &str = "1.1 5\n1.2 ok\n1.3 7\norder\n1.1\n1.2\n1.3\n1.end\nstate\nx 8\n";

// The most bytes that a bundle may have.
const MOST_BYTES: usize = 1_048_576;

// The most bytes that a text may have.
const MOST_TEXT: usize = 16_777_216;

// The status of a check of a text against a bundle, over a source that fails at once, and what was written.
fn check<R: Threads + Wait + Sync>(
    rt: &R,
    alloc: Global,
    bundle: &str,
    text: &str,
) -> Result<(Status, Vec<u8>), Fail> {
    run_files(rt, alloc, &WORDS, &[("B", bundle), ("T", text)])
}

#[test]
fn a_text_that_was_changed_fails_at_its_line(rt: HostRuntime) -> Result<(), Fail> {
    let readers = "kcas 1\nloc x 0\nthread\nget x\nthread\nget x\n";
    let waiter = "kcas 1\nloc x 0\nthread\ncheck x eq 1\nthread\nset x 1\n";
    let rows = [
        (
            FIRST,
            "1.1 5\n1.2 ok\n1.3 8\norder\n1.1\n1.2\n1.3\n1.end\nstate\nx 8\n",
            3,
            CheckWhy::Reply,
        ),
        (
            FIRST,
            "1.1 5\n1.2 ok\n1.3 7\norder\n1.2\n1.1\n1.3\n1.end\nstate\nx 8\n",
            5,
            CheckWhy::Turn,
        ),
        (
            FIRST,
            "1.1 5\n1.2 ok\n1.3 7\norder\n1.1\n1.2\n1.3\n1.end\nstate\nx 9\n",
            10,
            CheckWhy::State,
        ),
        (FIRST, "", 1, CheckWhy::Form),
        (
            FIRST,
            "1.1 5\n1.2 ok\n1.3 7\norder\n1.1\n1.2\n1.3\n1.end\nstate\nx 8\n\n",
            11,
            CheckWhy::Form,
        ),
        (
            readers,
            "1.1 0\n2.1 0\norder\n2.1\n1.1\n1.end\n2.end\nstate\nx 0\n",
            4,
            CheckWhy::Order,
        ),
        (
            waiter,
            "1.1 ok\n2.1 ok\norder\n1.1\n2.1\n1.end\n2.end\nstate\nx 1\n",
            4,
            CheckWhy::Waits,
        ),
    ];
    for (bundle, text, line, why) in rows {
        let (status, written) = check(&rt, rt.alloc(), bundle, text)?;
        ends_of(&rt, status, Status::Illegal { line, why }, text);
        says(&rt, &written, b"");
    }
    Ok(())
}

// The status of `kcas run` with an option on a script, and its text.
fn run<R: Threads + Wait + Sync>(
    rt: &R,
    alloc: Global,
    option: &str,
    script: &str,
) -> Result<(Status, Vec<u8>), Fail> {
    let mut source = FrailSource::new(script.as_bytes().to_vec(alloc)?, Vec::new(alloc));
    let mut sink = FrailSink::new(alloc, 1_000, Vec::new(alloc))?;
    let mut shelf = shelf(alloc, &[], Vec::new(alloc))?;
    let words = ["run", option];
    let (status, _) = call(rt, alloc, &words, &mut source, &mut shelf, &mut sink)?;
    Ok((status, sink.bytes().to_vec(alloc)?))
}

// Scripts of each way to wait, and of blocks.
const SCRIPTS: [&str; 6] = [
    FIRST,
    "kcas 1\n",
    "kcas 1\nmvar m\nmvar n\nthread\nmput m 1\nmtake n\nthread\nmtake m\nmput n 2\n",
    "kcas 1\npromise p\nthread\nawait p\nthread\ncancel 1\n",
    "kcas 1\nqueue q 2\nstack s 2\nloc x 1\nthread\natomic\nenq q 1\ncheck x eq 9\nor\nenq q 2\npush s 3\nend\nadd x 1\nthread\nadd x 1\nadd x 1\nthread\ndeqw q\ncheck x eq 0\n",
    "kcas 2\nlimit 12\ngrow g 4\ncache c 2 2\nacc a 3\nthread\nput g 1 10\nput g 2 20\ncput c 1 1\nbump a 4294967295\nbump a 2\nthread\nput g 3 30\ncput c 2 2\ncput c 3 3\ntotal a\n",
];

#[test]
fn what_is_printed_is_legal(rt: HostRuntime) -> Result<(), Fail> {
    let alloc = rt.alloc();
    for script in SCRIPTS {
        for option in ["--store=lock", "--store=kcas"] {
            let (status, text) = run(&rt, alloc, option, script)?;
            ends_of(&rt, status, Status::Done, script);
            let files = vec![in alloc;
                named(alloc, "B", script.as_bytes())?,
                named(alloc, "T", &text)?,
            ]?;
            let mut shelf = MemShelf::new(files, Vec::new(alloc));
            let (status, written) = run_over(&rt, alloc, &WORDS, &mut shelf)?;
            ends_of(&rt, status, Status::Done, script);
            says(&rt, &written, b"legal\n");
        }
    }
    Ok(())
}

// A file of this name.
fn named(alloc: Global, name: &str, bytes: &[u8]) -> Result<(String, Vec<u8>), Fail> {
    Ok((String::from_str(alloc, name)?, bytes.to_vec(alloc)?))
}

#[test]
fn both_files_are_read_before_the_bundle_is_parsed(rt: HostRuntime) -> Result<(), Fail> {
    let alloc = rt.alloc();
    let rows: [&[(&str, &str)]; 3] = [&[], &[("T", FIRST_TEXT)], &[("B", "no header\n")]];
    for files in rows {
        let (status, written) = run_files(&rt, alloc, &WORDS, files)?;
        ends(&rt, status, Status::ReadFault);
        says(&rt, &written, b"");
    }
    let (status, written) = check(&rt, alloc, "kcas 1\nloc x 4294967296\n", "")?;
    let fault = Status::Script {
        part: 0,
        line: 2,
        why: Why::BadNumber,
    };
    ends(&rt, status, fault);
    says(&rt, &written, b"");
    Ok(())
}

// The status of a check where one fetch and one write fail, and what was written.
fn check_failing<R: Threads + Wait + Sync>(
    rt: &R,
    alloc: Global,
    failing_fetch: u64,
    failing_write: u64,
) -> Result<(Status, Vec<u8>), Fail>
    requires fetch { (1 ≤ failing_fetch) × (failing_fetch ≤ 9) }
    requires write { (1 ≤ failing_write) × (failing_write ≤ 9) }
{
    let mut source = FrailSource::new(Vec::new(alloc), vec![in alloc; 1]?);
    let files = [("B", FIRST), ("T", FIRST_TEXT)];
    let mut shelf = shelf(alloc, &files, vec![in alloc; failing_fetch]?)?;
    let mut sink = FrailSink::new(alloc, 100, vec![in alloc; failing_write]?)?;
    let (status, store) = call(rt, alloc, &WORDS, &mut source, &mut shelf, &mut sink)?;
    if store.is_some() {
        return Err(Fail::from("a check serves no store"));
    }
    Ok((status, sink.bytes().to_vec(alloc)?))
}

#[test]
fn each_fetch_and_each_write_of_a_check_may_fail(rt: HostRuntime) -> Result<(), Fail> {
    for call in 1..3 {
        let (status, written) = check_failing(&rt, rt.alloc(), call, 9)?;
        ends(&rt, status, Status::ReadFault);
        says(&rt, &written, b"");
    }
    let (status, written) = check_failing(&rt, rt.alloc(), 3, 1)?;
    ends(&rt, status, Status::WriteFault);
    holds(&rt, b"legal\n".starts_with(&written));
    let (status, written) = check_failing(&rt, rt.alloc(), 3, 2)?;
    ends(&rt, status, Status::Done);
    says(&rt, &written, b"legal\n");
    Ok(())
}

// The status of a check of two files that have so many bytes.
fn check_long<R: Threads + Wait + Sync>(
    rt: &R,
    alloc: Global,
    bundle: usize,
    text: usize,
) -> Result<Status, Fail> {
    let mut script = b"kcas 1\n".to_vec(alloc)?;
    script.resize(bundle, b'#')?;
    let mut files = vec![in alloc; (String::from_str(alloc, "B")?, script)]?;
    files.push((String::from_str(alloc, "T")?, vec![in alloc; b'1'; text]?))?;
    let mut shelf = MemShelf::new(files, Vec::new(alloc));
    let (status, _) = run_over(rt, alloc, &WORDS, &mut shelf)?;
    Ok(status)
}

#[test]
fn each_file_has_a_limit_of_its_own(rt: HostRuntime) -> Result<(), Fail> {
    let misformed = Status::Illegal {
        line: 1,
        why: CheckWhy::Form,
    };
    let rows = [
        (MOST_BYTES, MOST_BYTES + 1, misformed),
        (MOST_BYTES + 1, 0, Status::TooLong),
        (7, MOST_TEXT, misformed),
        (7, MOST_TEXT + 1, Status::TooLong),
        (MOST_BYTES + 1, MOST_TEXT + 1, Status::TooLong),
    ];
    for (bundle, text, status) in rows {
        let found = check_long(&rt, rt.alloc(), bundle, text)?;
        ends(&rt, found, status);
    }
    Ok(())
}
