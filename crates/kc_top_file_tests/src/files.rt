//! Scripts in files.

ghost use Rattle.std.specs.Prelude.{◌≤◌};

use crate::calling::{call, ends, holds, run_files, run_over, says, shelf};
use kc_model::{FrailSink, FrailSource};
use kc_script_lines::Why;
use kc_top::Status;
use std::alloc::Global;
use std::sync::Wait;
use std::test::Fail;
use std::thread::Threads;

const SETUP: (&str, &str) = ("S", "kcas 1\nloc x 0\n");

const ONE: (&str, &str) = ("A", "incr x\n");

const OTHER: (&str, &str) = ("B", "incr x\n");

fn has_added_twice(written: &[u8]) -> bool {
    written.starts_with(b"1.1 ok\n2.1 ok\norder\n".as_slice())
        && written.ends_with(b".end\nstate\nx 2\n".as_slice())
}

#[test]
fn each_file_is_a_thread_of_its_own(rt: HostRuntime) -> Result<(), Fail> {
    let alloc = rt.alloc();
    let files = [SETUP, ONE, OTHER, ("./-x", "incr x\n")];
    let rows: [&[&str]; 8] = [
        &["files", "S", "A", "B"],
        &["files", "S", "A", "A"],
        &["files", "S", "A", "./-x"],
        &["files", "--store", "lock", "S", "A", "B"],
        &["files", "--store=lock", "S", "A", "B"],
        &["files", "--store", "kcas", "S", "A", "B"],
        &["files", "--store=kcas", "S", "A", "B"],
        &["files", "S", "B", "A"],
    ];
    for words in rows {
        let (status, written) = run_files(&rt, alloc, words, &files)?;
        ends(&rt, status, Status::Done);
        holds(&rt, has_added_twice(&written));
    }
    Ok(())
}

#[test]
fn an_empty_file_is_a_thread_without_commands(rt: HostRuntime) -> Result<(), Fail> {
    let files = [SETUP, ("A", ""), ("lock", "")];
    let (status, written) = run_files(&rt, rt.alloc(), &["files", "S", "A"], &files)?;
    ends(&rt, status, Status::Done);
    says(&rt, &written, b"order\n1.end\nstate\nx 0\n");
    let (status, written) = run_files(&rt, rt.alloc(), &["files", "S", "lock"], &files)?;
    ends(&rt, status, Status::Done);
    says(&rt, &written, b"order\n1.end\nstate\nx 0\n");
    Ok(())
}

#[test]
fn a_fault_names_its_part_and_the_line_in_it(rt: HostRuntime) -> Result<(), Fail> {
    let rows = [
        (
            "kcas 1\nloc x 0\n",
            "incr x\n",
            "incr y\n",
            2,
            1,
            Why::UnknownName,
        ),
        (
            "kcas 1\nloc x 0\n",
            "\n\nincr z\n",
            "incr y\n",
            1,
            3,
            Why::UnknownName,
        ),
        (
            "kcas 1\nloc x 0\nthread\n",
            "incr z\n",
            "",
            0,
            3,
            Why::StrayWord,
        ),
        ("", "incr z\n", "", 0, 1, Why::Header),
    ];
    for (setup, one, other, part, line, why) in rows {
        let files = [("S", setup), ("A", one), ("B", other)];
        let (status, written) = run_files(&rt, rt.alloc(), &["files", "S", "A", "B"], &files)?;
        ends(&rt, status, Status::Script { part, line, why });
        says(&rt, &written, b"");
    }
    Ok(())
}

#[test]
fn a_file_that_is_not_there_is_a_read_fault_before_any_is_parsed(
    rt: HostRuntime,
) -> Result<(), Fail> {
    let files = [("S", "no header\n"), ONE];
    let rows: [&[&str]; 3] = [
        &["files", "S", "A", "B"],
        &["files", "S", "B", "A"],
        &["files", "B", "S", "A"],
    ];
    for words in rows {
        let (status, written) = run_files(&rt, rt.alloc(), words, &files)?;
        ends(&rt, status, Status::ReadFault);
        says(&rt, &written, b"");
    }
    Ok(())
}

// The status where one fetch fails of those that three files take.
fn run_failing_fetch<R: Threads + Wait + Sync>(
    rt: &R,
    alloc: Global,
    call: u64,
) -> Result<(Status, Vec<u8>), Fail>
    requires { (1 ≤ call) × (call ≤ 9) }
{
    let mut shelf = shelf(alloc, &[SETUP, ONE, OTHER], vec![in alloc; call]?)?;
    run_over(rt, alloc, &["files", "S", "A", "B"], &mut shelf)
}

#[test]
fn each_fetch_that_fails_is_a_read_fault_and_writes_nothing(rt: HostRuntime) -> Result<(), Fail> {
    for call in 1..4 {
        let (status, written) = run_failing_fetch(&rt, rt.alloc(), call)?;
        ends(&rt, status, Status::ReadFault);
        says(&rt, &written, b"");
    }
    let (status, written) = run_failing_fetch(&rt, rt.alloc(), 4)?;
    ends(&rt, status, Status::Done);
    holds(&rt, has_added_twice(&written));
    Ok(())
}

#[test]
fn one_long_file_is_too_long_though_another_is_not_there(rt: HostRuntime) -> Result<(), Fail> {
    let alloc = rt.alloc();
    let mut long = String::new(alloc);
    for _ in 0..16_384 {
        long.push_str("###############################################################\n")?;
    }
    let (status, _) = run_files(&rt, alloc, &["files", "S", "A"], &[SETUP, ("A", &long)])?;
    ends(&rt, status, Status::Done);
    long.push_str("#")?;
    let rows: [&[&str]; 2] = [&["files", "S", "A", "B"], &["files", "A", "S"]];
    for words in rows {
        let (status, written) = run_files(&rt, alloc, words, &[SETUP, ("A", &long)])?;
        ends(&rt, status, Status::TooLong);
        says(&rt, &written, b"");
    }
    Ok(())
}

#[test]
fn words_that_are_no_command_are_usage(rt: HostRuntime) -> Result<(), Fail> {
    let rows: [&[&str]; 36] = [
        &[],
        &["run", "now"],
        &["run", ""],
        &["run", "--store"],
        &["run", "--store", "plain"],
        &["run", "--store=plain"],
        &["run", "--store="],
        &["run", "--store", "lock", "--store", "lock"],
        &["--store", "kcas", "run"],
        &["storm", "-1"],
        &["files"],
        &["files", "S"],
        &["files", "--store", "kcas", "S"],
        &["files", "--store=plain", "S", "A"],
        &["files", "--store=lock", "--store=kcas", "S", "A"],
        &["files", "S", "--store=kcas", "A"],
        &["files", "S", ""],
        &["files", "S", "-x"],
        &["check"],
        &["check", "S"],
        &["check", "S", "A", "A"],
        &["check", "S", ""],
        &["check", "-x", "A"],
        &["check", "--store=kcas", "S", "A"],
        &["check", "--store", "lock", "S", "A"],
        &["check", "S", "A", "--store=kcas"],
        &["texts"],
        &["texts", "S"],
        &["texts", "S", "A", "A"],
        &["texts", "S", ""],
        &["texts", "-x", "A"],
        &["texts", "--store=kcas", "S", "A"],
        &["texts", "--store", "lock", "S", "A"],
        &["texts", "--store", "kcas"],
        &["texts", "S", "A", "--store=lock"],
        &["--help"],
    ];
    for words in rows {
        let files = [SETUP, ONE, ("-x", ""), ("", "")];
        let (status, written) = run_files(&rt, rt.alloc(), words, &files)?;
        ends(&rt, status, Status::Usage);
        says(&rt, &written, b"");
    }
    Ok(())
}

#[test]
fn as_many_files_as_threads_may_be(rt: HostRuntime) -> Result<(), Fail> {
    let mut words = vec![in rt.alloc(); "files", "S"]?;
    for _ in 0..16 {
        words.push("A")?;
    }
    let (status, written) = run_files(&rt, rt.alloc(), &words, &[SETUP, ONE])?;
    ends(&rt, status, Status::Done);
    holds(&rt, written.ends_with(b".end\nstate\nx 16\n"));
    words.push("A")?;
    let (status, _) = run_files(&rt, rt.alloc(), &words, &[SETUP, ONE])?;
    ends(&rt, status, Status::Usage);
    Ok(())
}

#[test]
fn run_takes_the_store_option_and_no_file(rt: HostRuntime) -> Result<(), Fail> {
    let alloc = rt.alloc();
    let rows: [&[&str]; 4] = [
        &["run"],
        &["run", "--store", "lock"],
        &["run", "--store=lock"],
        &["run", "--store", "kcas"],
    ];
    for words in rows {
        let mut source = FrailSource::new(b"kcas 1\n".to_vec(alloc)?, Vec::new(alloc));
        let mut shelf = shelf(alloc, &[], vec![in alloc; 1]?)?;
        let mut sink = FrailSink::new(alloc, 100, Vec::new(alloc))?;
        let (status, store) = call(&rt, alloc, words, &mut source, &mut shelf, &mut sink)?;
        ends(&rt, status, Status::Done);
        holds(&rt, store.is_none());
        says(&rt, sink.bytes(), b"order\nstate\n");
    }
    Ok(())
}
