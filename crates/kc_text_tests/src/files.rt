//! The two files of a run on texts: what they have, their faults, and what two threads read and write of them.

use kc_model::FrailSink;
use kc_script_lines::{Limit, ScriptError, Why};
use kc_text::Text;
use kc_text_files::{picks_of, texts_of};
use kc_text_run::{ReadPicks, read_by_two, write_lines};
use std::alloc::Global;
use std::process::Abort;
use std::sync::Wait;
use std::test::Fail;
use std::thread::Threads;

// The line of a file and what is wrong with it, where something is.
fn fault_in(e: ScriptError) -> Option<(u32, Why)> {
    match e {
        ScriptError::Fault { line, why } => Some((line, why)),
        ScriptError::NoMemory => None,
    }
}

fn texts_fault(alloc: Global, bytes: &[u8]) -> Option<(u32, Why)> {
    match texts_of(alloc, bytes) {
        Ok(_) => None,
        Err(e) => fault_in(e),
    }
}

fn picks_fault(alloc: Global, texts: u32, bytes: &[u8]) -> Option<(u32, Why)> {
    match picks_of(alloc, texts, bytes) {
        Ok(_) => None,
        Err(e) => fault_in(e),
    }
}

// So many times these bytes.
fn times(alloc: Global, line: &[u8], count: u32) -> Option<Vec<u8>> {
    let mut bytes = Vec::new(alloc);
    for _ in 0..count {
        bytes.extend_from_slice(line).ok()?;
    }
    Some(bytes)
}

// Asserts a fault, or that there is none.
fn fails(rt: &impl Abort, fault: Option<(u32, Why)>, want: Option<(u32, Why)>) {
    assert_eq!(rt; fault, want);
}

// Asserts what was written.
fn says(rt: &impl Abort, written: &[u8], lines: &[u8]) {
    assert_eq!(rt; written, lines);
}

#[test]
fn a_file_of_texts_has_the_faults_of_its_lines(rt: HostRuntime) -> Result<(), Fail> {
    let alloc = rt.alloc();
    let long = Some((2, Why::TooMany(Limit::TextBytes)));
    fails(&rt, texts_fault(alloc, b""), None);
    fails(&rt, texts_fault(alloc, b"red\ngreen\nblue"), None);
    let (Some(fits), Some(longer)) = (times(alloc, b"x", 64), times(alloc, b"x", 65)) else {
        return Err(Fail::from("no memory"));
    };
    fails(&rt, texts_fault(alloc, &fits), None);
    let mut bytes = Vec::new(alloc);
    bytes.extend_from_slice(b"red\n")?;
    bytes.extend_from_slice(&longer)?;
    fails(&rt, texts_fault(alloc, &bytes), long);
    let Some(mut lines) = times(alloc, b"x\n", 4096) else {
        return Err(Fail::from("no memory"));
    };
    fails(&rt, texts_fault(alloc, &lines), None);
    lines.extend_from_slice(&longer)?;
    fails(
        &rt,
        texts_fault(alloc, &lines),
        Some((4097, Why::TooMany(Limit::Texts))),
    );
    Ok(())
}

#[test]
fn a_file_of_picks_has_the_faults_of_its_lines(rt: HostRuntime) -> Result<(), Fail> {
    let alloc = rt.alloc();
    let bad = Some((1, Why::BadNumber));
    fails(&rt, picks_fault(alloc, 3, b"3\n1\n3\n2"), None);
    fails(&rt, picks_fault(alloc, 3, b"0000000003\n"), None);
    for bytes in ["4", "0", "3 ", " 3", "3\r", "\n3", "+3", "00000000003", "x"] {
        fails(&rt, picks_fault(alloc, 3, bytes.as_bytes()), bad);
    }
    fails(&rt, picks_fault(alloc, 0, b"1"), bad);
    fails(&rt, picks_fault(alloc, 0, b""), None);
    fails(
        &rt,
        picks_fault(alloc, 1, b"1\n1\n2\n"),
        Some((3, Why::BadNumber)),
    );
    let Some(mut lines) = times(alloc, b"1\n", 65_536) else {
        return Err(Fail::from("no memory"));
    };
    fails(&rt, picks_fault(alloc, 1, &lines), None);
    lines.extend_from_slice(b"x")?;
    fails(
        &rt,
        picks_fault(alloc, 1, &lines),
        Some((65_537, Why::TooMany(Limit::Picks))),
    );
    Ok(())
}

// What two threads read of two files.
fn read<R: Threads + Wait + Sync>(
    rt: &R,
    alloc: Global,
    texts: Vec<Text>,
    picks: &[u8],
) -> Option<ReadPicks> {
    if texts.is_empty() || texts.len() > 4096 {
        return None;
    }
    let Ok(picks) = picks_of(alloc, texts.len() as u32, picks) else {
        return None;
    };
    let Ok(read) = read_by_two(rt, alloc, texts, &picks) else {
        return None;
    };
    Some(read)
}

// What is written of them.
fn written<R: Threads + Wait + Sync>(
    rt: &R,
    alloc: Global,
    texts: &[u8],
    picks: &[u8],
) -> Option<Vec<u8>> {
    let Ok(texts) = texts_of(alloc, texts) else {
        return None;
    };
    let ReadPicks {
        front,
        back,
        past: _,
    } = read(rt, alloc, texts, picks)?;
    let Ok(mut sink) = FrailSink::new(alloc, 4096, Vec::new(alloc)) else {
        return None;
    };
    let Ok(()) = write_lines(&front, &back, &mut sink) else {
        return None;
    };
    let mut bytes = Vec::new(alloc);
    bytes.extend_from_slice(sink.bytes()).ok()?;
    Some(bytes)
}

#[test]
fn two_threads_read_the_picked_lines(rt: HostRuntime) -> Result<(), Fail> {
    let alloc = rt.alloc();
    for _ in 0..50 {
        let Some(bytes) = written(&rt, alloc, b"red\ngreen\nblue", b"3\n1\n3\n2") else {
            return Err(Fail::from("not read"));
        };
        says(&rt, &bytes, b"blue\nred\nblue\ngreen\n");
    }
    let Some(bytes) = written(&rt, alloc, b"red\ngreen\nblue\n", b"3\n1\n2\n") else {
        return Err(Fail::from("not read"));
    };
    says(&rt, &bytes, b"blue\nred\ngreen\n");
    Ok(())
}
