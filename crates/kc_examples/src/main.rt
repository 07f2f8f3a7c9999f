//! Runs each script of `examples/`, of which `data/` is the copy that the gate lets a program read, and says whether its text and its exit number are those that stand beside it, and whether a check accepts the text; each script of `faults/`, whether its line on standard error is that; of each text of `checks/`, whether a check refuses it with its line; the script in parts of `files/`, whether its text is that; and the picks of `texts/`, whether the picked texts are written, and of each file there with a fault whether its line is that. Last it says of bytes that nobody would write whether they have their faults.
#![tactic(auto)]

mod hostile;

use hostile::{HOSTILE, Hostile};
use kc_model::{FrailSink, FrailSource, MemShelf};
use kc_top::{OpenGate, Status, kcas_main};
use std::alloc::Global;
use std::rt::Files;
use std::sync::Wait;
use std::thread::Threads;
use std::{fs, io};

// The name of each script, and its exit number.
const EXAMPLES: [(&str, u8); 23] = [
    ("first", 0),
    ("locations", 0),
    ("several", 0),
    ("still", 0),
    ("words", 0),
    ("wraps", 0),
    ("stack", 0),
    ("queue", 0),
    ("table", 0),
    ("grow", 0),
    ("cache", 0),
    ("values", 0),
    ("transfer", 0),
    ("alternatives", 0),
    ("nested", 0),
    ("tour", 0),
    ("handover", 0),
    ("apart", 0),
    ("limit", 0),
    ("shutdown", 0),
    ("taken_back", 0),
    ("checks/bundle", 0),
    ("refused", 3),
];

// The name of each script of `faults/`. Beside it stands its line on standard error.
const FAULTS: [&str; 20] = [
    "header",
    "unknown_word",
    "unknown_name",
    "repeated_name",
    "bad_name",
    "bad_number",
    "wrong_kind",
    "missing_word",
    "extra_word",
    "unclosed_block",
    "stray_word",
    "locations",
    "threads",
    "commands",
    "block",
    "depth",
    "limit",
    "old_limit",
    "old_grow",
    "cancel",
];

// The name of each text of `checks/` that is none of `checks/bundle`. Beside it stands its line on standard error.
const CHECKS: [&str; 6] = ["form", "turn", "waits", "reply", "order", "state"];

// The name of each file of `texts/` that is at fault as texts, and of each that is as picks. Beside it stands its line on
// standard error.
const TEXTS: [&str; 2] = ["text_too_long", "too_many_texts"];

const PICKS: [&str; 3] = ["no_such_text", "blank", "too_many_picks"];

// The parts of `files/`, the setup first. Beside them stands their text.
const PARTS: [&str; 3] = ["files/setup.kcas", "files/first.kcas", "files/second.kcas"];

// The exit number of a script, of texts and of picks with a fault.
const FAULT: u8 = 3;

// The exit number of a text that is of no run.
const ILLEGAL: u8 = 8;

// More bytes than any text of theirs has.
const ROOM: usize = 4096;

fn main(rt: HostRuntime) -> io::Result<()> {
    let alloc = rt.alloc();
    tell_of_scripts(&rt, alloc)?;
    tell_of_faults(&rt, alloc)?;
    tell_of_checks(&rt, alloc)?;
    tell_of_parts(&rt, alloc)?;
    tell_of_texts(&rt, alloc)?;
    tell_of_hostile(&rt, alloc)
}

fn tell_of_scripts<R: Alloc<A = Global> + Files + Print + Threads + Wait + Sync>(
    rt: &R,
    alloc: Global,
) -> io::Result<()> {
    for (name, number) in EXAMPLES {
        tell_of_script(rt, alloc, name, number)?;
    }
    Ok(())
}

// Says whether its text and its exit number are as they should be.
fn tell_of_script<R: Alloc<A = Global> + Files + Print + Threads + Wait + Sync>(
    rt: &R,
    alloc: Global,
    name: &str,
    number: u8,
) -> io::Result<()> {
    let script = file(rt, alloc, name, "kcas")?;
    let text = file(rt, alloc, name, "txt")?;
    say(rt, name, is_as_expected(rt, alloc, script, &text, number)?)
}

fn tell_of_faults<R: Alloc<A = Global> + Files + Print + Threads + Wait + Sync>(
    rt: &R,
    alloc: Global,
) -> io::Result<()> {
    for name in FAULTS {
        tell_of_fault(rt, alloc, &format!(in alloc; "faults/{name}")?)?;
    }
    Ok(())
}

fn tell_of_fault<R: Alloc<A = Global> + Files + Print + Threads + Wait + Sync>(
    rt: &R,
    alloc: Global,
    name: &str,
) -> io::Result<()> {
    let script = file(rt, alloc, name, "kcas")?;
    let line = file(rt, alloc, name, "txt")?;
    say(rt, name, has_its_line(rt, alloc, script, &line)?)
}

fn tell_of_checks<R: Alloc<A = Global> + Files + Print + Threads + Wait + Sync>(
    rt: &R,
    alloc: Global,
) -> io::Result<()> {
    let bundle = fs::read(rt, "checks/bundle.kcas")?;
    for name in CHECKS {
        tell_of_check(rt, alloc, &bundle, &format!(in alloc; "checks/{name}")?)?;
    }
    Ok(())
}

fn tell_of_check<R: Alloc<A = Global> + Files + Print + Threads + Wait + Sync>(
    rt: &R,
    alloc: Global,
    bundle: &[u8],
    name: &str,
) -> io::Result<()> {
    let text = file(rt, alloc, name, "txt")?;
    let line = file(rt, alloc, name, "line")?;
    say(
        rt,
        name,
        fails_with_its_line(rt, alloc, bundle, &text, &line)?,
    )
}

// Says whether the script in parts has its text.
fn tell_of_parts<R: Alloc<A = Global> + Files + Print + Threads + Wait + Sync>(
    rt: &R,
    alloc: Global,
) -> io::Result<()> {
    let mut parts = Vec::new(alloc);
    for name in PARTS {
        parts.push((String::from_str(alloc, name)?, fs::read(rt, name)?))?;
    }
    let text = fs::read(rt, "files/text.txt")?;
    say(rt, "files", parts_are_as_expected(rt, alloc, parts, &text)?)
}

// Says whether the picked texts of `texts/` are written, and whether each fault there has its line.
fn tell_of_texts<R: Alloc<A = Global> + Files + Print + Threads + Wait + Sync>(
    rt: &R,
    alloc: Global,
) -> io::Result<()> {
    let texts = fs::read(rt, "texts/texts.txt")?;
    let picks = fs::read(rt, "texts/picks.txt")?;
    let picked = fs::read(rt, "texts/picked.txt")?;
    say(rt, "texts", are_picked(rt, alloc, &texts, &picks, &picked)?)?;
    tell_of_wrong_texts(rt, alloc, &picks)?;
    tell_of_wrong_picks(rt, alloc, &texts)
}

fn tell_of_wrong_texts<R: Alloc<A = Global> + Files + Print + Threads + Wait + Sync>(
    rt: &R,
    alloc: Global,
    picks: &[u8],
) -> io::Result<()> {
    for name in TEXTS {
        let name = format!(in alloc; "texts/{name}")?;
        let wrong = file(rt, alloc, &name, "txt")?;
        let line = file(rt, alloc, &name, "line")?;
        say(
            rt,
            &name,
            refuses_with_its_line(rt, alloc, &wrong, picks, &line)?,
        )?;
    }
    Ok(())
}

fn tell_of_wrong_picks<R: Alloc<A = Global> + Files + Print + Threads + Wait + Sync>(
    rt: &R,
    alloc: Global,
    texts: &[u8],
) -> io::Result<()> {
    for name in PICKS {
        let name = format!(in alloc; "texts/{name}")?;
        let wrong = file(rt, alloc, &name, "txt")?;
        let line = file(rt, alloc, &name, "line")?;
        say(
            rt,
            &name,
            refuses_with_its_line(rt, alloc, texts, &wrong, &line)?,
        )?;
    }
    Ok(())
}

fn tell_of_hostile<R: Print + Threads + Wait + Sync>(rt: &R, alloc: Global) -> io::Result<()> {
    for hostile in &HOSTILE {
        say(rt, hostile.name, has_its_fault(rt, alloc, hostile)?)?;
    }
    Ok(())
}

fn file<R: Alloc<A = Global> + Files>(
    rt: &R,
    alloc: Global,
    name: &str,
    ending: &str,
) -> io::Result<Vec<u8>> {
    fs::read(rt, &format!(in alloc; "{name}.{ending}")?)
}

fn say<R: Print>(rt: &R, name: &str, good: bool) -> io::Result<()> {
    let verdict = if good { "ok" } else { "differs" };
    println!(rt; "{name}: {verdict}")
}

fn is_as_expected<R: Threads + Wait + Sync>(
    rt: &R,
    alloc: Global,
    script: Vec<u8>,
    text: &[u8],
    number: u8,
) -> io::Result<bool> {
    let bundle = script.as_slice().to_vec(alloc)?;
    let mut sink = sink(alloc)?;
    let status = run(rt, alloc, script, &mut sink)?;
    let as_expected = status.number() == number && sink.bytes() == text;
    Ok(as_expected && (number > 0 || is_legal(rt, alloc, &bundle, text)?))
}

// Whether a check accepts the text.
fn is_legal<R: Threads + Wait + Sync>(
    rt: &R,
    alloc: Global,
    bundle: &[u8],
    text: &[u8],
) -> io::Result<bool> {
    let mut sink = sink(alloc)?;
    let status = on_two(rt, alloc, "check", bundle, text, &mut sink)?;
    Ok(status == Status::Done && sink.bytes() == b"legal\n".as_slice())
}

// Whether a check refuses the text with this line, which ends with a newline, and nothing is written.
fn fails_with_its_line<R: Threads + Wait + Sync>(
    rt: &R,
    alloc: Global,
    bundle: &[u8],
    text: &[u8],
    line: &[u8],
) -> io::Result<bool> {
    let mut sink = sink(alloc)?;
    let status = on_two(rt, alloc, "check", bundle, text, &mut sink)?;
    Ok(tells(status, ILLEGAL, line) && sink.bytes().is_empty())
}

// Whether of these texts just the picked ones are written.
fn are_picked<R: Threads + Wait + Sync>(
    rt: &R,
    alloc: Global,
    texts: &[u8],
    picks: &[u8],
    picked: &[u8],
) -> io::Result<bool> {
    let mut sink = sink(alloc)?;
    let status = on_two(rt, alloc, "texts", texts, picks, &mut sink)?;
    Ok(status == Status::Done && sink.bytes() == picked)
}

// Whether the texts or the picks are refused with this line, which ends with a newline, and nothing is written.
fn refuses_with_its_line<R: Threads + Wait + Sync>(
    rt: &R,
    alloc: Global,
    texts: &[u8],
    picks: &[u8],
    line: &[u8],
) -> io::Result<bool> {
    let mut sink = sink(alloc)?;
    let status = on_two(rt, alloc, "texts", texts, picks, &mut sink)?;
    Ok(tells(status, FAULT, line) && sink.bytes().is_empty())
}

// What a command on two files comes to.
fn on_two<R: Threads + Wait + Sync>(
    rt: &R,
    alloc: Global,
    command: &str,
    first: &[u8],
    second: &[u8],
    sink: &mut FrailSink,
) -> io::Result<Status> {
    let mut words = words(alloc, command)?;
    words.push(String::from_str(alloc, "first")?)?;
    words.push(String::from_str(alloc, "second")?)?;
    let mut files = Vec::new(alloc);
    files.push((String::from_str(alloc, "first")?, first.to_vec(alloc)?))?;
    files.push((String::from_str(alloc, "second")?, second.to_vec(alloc)?))?;
    let mut source = FrailSource::new(Vec::new(alloc), Vec::new(alloc));
    let mut shelf = MemShelf::new(files, Vec::new(alloc));
    let (status, _) = kcas_main(rt, alloc, &words, &mut source, &mut shelf, sink, &OpenGate);
    Ok(status)
}

// Whether the status has this number and this line, which ends with a newline.
fn tells(status: Status, number: u8, line: &[u8]) -> bool {
    let told = status.line();
    status.number() == number && line.strip_suffix(b"\n".as_slice()) == Some(told.as_bytes())
}

fn parts_are_as_expected<R: Threads + Wait + Sync>(
    rt: &R,
    alloc: Global,
    parts: Vec<(String, Vec<u8>)>,
    text: &[u8],
) -> io::Result<bool> {
    let mut words = words(alloc, "files")?;
    for name in PARTS {
        words.push(String::from_str(alloc, name)?)?;
    }
    let mut source = FrailSource::new(Vec::new(alloc), Vec::new(alloc));
    let mut shelf = MemShelf::new(parts, Vec::new(alloc));
    let mut sink = sink(alloc)?;
    let (status, _) = kcas_main(
        rt,
        alloc,
        &words,
        &mut source,
        &mut shelf,
        &mut sink,
        &OpenGate,
    );
    Ok(status == Status::Done && sink.bytes() == text)
}

// Whether the script is refused with this line, which ends with a newline, and nothing is written.
fn has_its_line<R: Threads + Wait + Sync>(
    rt: &R,
    alloc: Global,
    script: Vec<u8>,
    line: &[u8],
) -> io::Result<bool> {
    let mut sink = sink(alloc)?;
    let status = run(rt, alloc, script, &mut sink)?;
    Ok(tells(status, FAULT, line) && sink.bytes().is_empty())
}

// Whether the bytes are refused with their fault, and nothing is written.
fn has_its_fault<R: Threads + Wait + Sync>(
    rt: &R,
    alloc: Global,
    hostile: &Hostile,
) -> io::Result<bool> {
    let mut script = hostile.front.to_vec(alloc)?;
    for _ in 0..hostile.times {
        script.extend_from_slice(hostile.more)?;
    }
    let fault = Status::Script {
        part: 0,
        line: hostile.line,
        why: hostile.why,
    };
    let mut sink = sink(alloc)?;
    let status = run(rt, alloc, script, &mut sink)?;
    Ok(status == fault && sink.bytes().is_empty())
}

fn sink(alloc: Global) -> io::Result<FrailSink> {
    match FrailSink::new(alloc, ROOM, Vec::new(alloc)) {
        Ok(sink) => Ok(sink),
        Err(_) => Err(io::ErrorKind::OutOfMemory.into()),
    }
}

fn run<R: Threads + Wait + Sync>(
    rt: &R,
    alloc: Global,
    script: Vec<u8>,
    sink: &mut FrailSink,
) -> io::Result<Status> {
    let words = words(alloc, "run")?;
    let mut source = FrailSource::new(script, Vec::new(alloc));
    let mut shelf = MemShelf::new(Vec::new(alloc), Vec::new(alloc));
    let (status, _) = kcas_main(rt, alloc, &words, &mut source, &mut shelf, sink, &OpenGate);
    Ok(status)
}

// The program's name, and the command's.
fn words(alloc: Global, command: &str) -> io::Result<Vec<String>> {
    let mut words = Vec::new(alloc);
    words.push(String::from_str(alloc, "kcas")?)?;
    words.push(String::from_str(alloc, command)?)?;
    Ok(words)
}
