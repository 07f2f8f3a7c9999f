//! Scripts from the source.

ghost use Rattle.std.specs.Prelude.{◌≤◌, None};

use crate::asserts::{
    ROOM, STORES, all_give, call, ends, gives, holds, is, no_files, run, run_behind, says, text_of,
};
use kc_model::{Failed, FrailSink, FrailSource, Sink, SureSource};
use kc_script_lines::{Limit, Why};
use kc_top::{CheckWhy, OpenGate, Status, StoreName};
use std::alloc::Global;
use std::fmt::Write;
use std::sync::Wait;
use std::test::Fail;
use std::thread::Threads;

const FIRST: &str = "kcas 1\nloc x 5\nthread\nget x\nset x 7\nadd x 1\n";

const FIRST_TEXT: &str = "1.1 5\n1.2 ok\n1.3 7\norder\n1.1\n1.2\n1.3\n1.end\nstate\nx 8\n";

#[test]
fn worked_scripts_give_their_texts(rt: HostRuntime) -> Result<(), Fail> {
    let rows = [
        (FIRST, FIRST_TEXT),
        ("kcas 1\n", "order\nstate\n"),
        (
            "kcas 1\nloc x 4294967295\nthread\nadd x 1\n",
            "1.1 4294967295\norder\n1.1\n1.end\nstate\nx 0\n",
        ),
        (
            "# demo\r\nkcas\t1\r\nloc\tx\t5\r\nthread\r\nget\tx\r\nset\tx\t7\r\nadd\tx\t1\r\n",
            FIRST_TEXT,
        ),
        (
            "kcas 1\nloc x 1\nloc y 2\nthread\nset y 0000000003\nget x\nget y",
            "1.1 ok\n1.2 1\n1.3 3\norder\n1.1\n1.2\n1.3\n1.end\nstate\nx 1\ny 3\n",
        ),
        (
            "kcas 1\nloc x 5\nloc y 6\nthread\nswap x y\ncas x 6 9\ncas x 6 1\nupdate x max 4\nmodify y xor 1\ndecr y\ncheck y eq 9\n",
            "1.1 ok\n1.2 true\n1.3 false\n1.4 9\n1.5 ok\n1.6 ok\n1.7 stranded\norder\n1.1\n1.2\n1.3\n1.4\n1.5\n1.6\n1.7\n1.end\nstate\nx 9\ny 3\n",
        ),
    ];
    all_give(&rt, rt.alloc(), &rows)
}

#[test]
fn worked_blocks_and_structures_give_their_texts(rt: HostRuntime) -> Result<(), Fail> {
    let rows = [
        (
            "kcas 1\nstack s 2\nloc x 5\nthread\natomic\npush s 1\ncheck x eq 9\nor\nget x\nend\n",
            "1.1 5\norder\n1.1\n1.end\nstate\ns\nx 5\n",
        ),
        (
            "kcas 1\nloc x 5\nthread\natomic\ncheck x eq 9\nor\ncheck x eq 8\nend\n",
            "1.1 stranded\norder\n1.1\n1.end\nstate\nx 5\n",
        ),
        (
            "kcas 1\nthread\natomic\nend\n",
            "1.1 -\norder\n1.1\n1.end\nstate\n",
        ),
        (
            "kcas 1\nqueue q 1\nloc x 0\nthread\natomic\nenq q 4\natomic\ndeqw q\ncheck x eq 1\nor\nfront q\nend\nend\n",
            "1.1 ok 4\norder\n1.1\n1.end\nstate\nq 4\nx 0\n",
        ),
        (
            "kcas 1\nstack s 2\nloc x 5\nthread\natomic\npush s 1\nset x 6\npopw s\npopw s\nend\nget x\nlen s\n",
            "1.1 stranded\n1.2 5\n1.3 0\norder\n1.1\n1.2\n1.3\n1.end\nstate\ns\nx 5\n",
        ),
        (
            "kcas 1\nstack s 1\nthread\npush s 4\npush s 5\npop s\npop s\n",
            "1.1 ok\n1.2 full\n1.3 4\n1.4 none\norder\n1.1\n1.2\n1.3\n1.4\n1.end\nstate\ns\n",
        ),
        (
            "kcas 1\nqueue q 3\nthread\nenq q 1\nenq q 2\ndeq q\nenq q 3\nenq q 4\nenq q 5\ndeq q\nfront q\nlen q\n",
            "1.1 ok\n1.2 ok\n1.3 1\n1.4 ok\n1.5 ok\n1.6 full\n1.7 2\n1.8 3\n1.9 2\norder\n1.1\n1.2\n1.3\n1.4\n1.5\n1.6\n1.7\n1.8\n1.9\n1.end\nstate\nq 3 4\n",
        ),
        (
            "kcas 1\ntable t 1 3\nthread\nput t 1 10\nput t 2 20\nput t 3 30\ndel t 2\nfind t 1\nfind t 2\nfind t 3\nput t 9 90\nput t 8 80\nput t 1 11\nlen t\n",
            "1.1 ok\n1.2 ok\n1.3 ok\n1.4 20\n1.5 10\n1.6 none\n1.7 30\n1.8 ok\n1.9 full\n1.10 ok\n1.11 3\norder\n1.1\n1.2\n1.3\n1.4\n1.5\n1.6\n1.7\n1.8\n1.9\n1.10\n1.11\n1.end\nstate\nt 1=11 3=30 9=90\n",
        ),
        (
            "kcas 1\ncache c 2 2\nthread\ncput c 1 10\ncput c 2 20\ncget c 1\ncput c 3 30\ncget c 2\nlen c\n",
            "1.1 ok\n1.2 ok\n1.3 10\n1.4 ok\n1.5 none\n1.6 2\norder\n1.1\n1.2\n1.3\n1.4\n1.5\n1.6\n1.end\nstate\nc 3=30 1=10\n",
        ),
        (
            "kcas 1\ncache c 2 2\nthread\ncputw c 1 10\ncputw c 2 20\ncget c 1\ncput c 3 30\ncdel c 1\ncputw c 4 40\ncget c 3\nlen c\n",
            "1.1 ok\n1.2 ok\n1.3 10\n1.4 ok\n1.5 10\n1.6 ok\n1.7 30\n1.8 2\norder\n1.1\n1.2\n1.3\n1.4\n1.5\n1.6\n1.7\n1.8\n1.end\nstate\nc 3=30 4=40\n",
        ),
        (
            "kcas 1\ncache c 1 1\nthread\ncputw c 1 10\ncputw c 1 11\ncputw c 2 20\ncput c 2 21\n",
            "1.1 ok\n1.2 ok\n1.3 stranded\n1.4 ok\norder\n1.1\n1.2\n1.3\n1.4\n1.end\nstate\nc 2=21\n",
        ),
        (
            "kcas 1\npromise p\nthread\nresolve p 4\nresolve p 5\nawait p\nresolved p\n",
            "1.1 ok\n1.2 false\n1.3 4\n1.4 true\norder\n1.1\n1.2\n1.3\n1.4\n1.end\nstate\np 4\n",
        ),
        (
            "kcas 1\nmvar m\nthread\nmpeek m\nmtake m\nmput m 4\nmput m 5\nmpeek m\nmtake m\nmpeek m\n",
            "1.1 none\n1.2 stranded\n1.3 ok\n1.4 stranded\n1.5 4\n1.6 4\n1.7 none\norder\n1.1\n1.2\n1.3\n1.4\n1.5\n1.6\n1.7\n1.end\nstate\nm none\n",
        ),
        (
            "kcas 1\nacc a 32\nacc b 32\nloc x 1\nthread\natomic\ntotal a\ntotal b\nend\natomic\nbump a 5\ntotal a\ntotal b\nget x\nend\n",
            "1.1 0 0\n1.2 toolarge\norder\n1.1\n1.2\n1.end\nstate\na 0\nb 0\nx 1\n",
        ),
        (
            "kcas 1\nacc a 32\nacc b 31\nloc x 1\nthread\natomic\ntotal a\ntotal b\ncheck x eq 2\nend\natomic\ntotal a\ntotal b\ncheck x eq 1\nend\n",
            "1.1 toolarge\n1.2 0 0 ok\norder\n1.1\n1.2\n1.end\nstate\na 0\nb 0\nx 1\n",
        ),
    ];
    all_give(&rt, rt.alloc(), &rows)
}

/// The script `examples/tour.kcas`, without its comments: each declaration and each command at least once.
const TOUR: &str =
    "kcas 1\nloc x 5\nloc y 6\nstack s 2\nqueue q 3\ntable t 1 3\ncache c 2 2\nmvar m\npromise p\nacc a 4\nthread\nget x\nset x 7\nxchg y 8\nswap x y\ncas x 8 9\nadd x 1\nincr x\ndecr y\nupdate x max 20\nmodify y xor 1\ncheck x eq 20\npush s 4\npush s 5\npush s 6\ntop s\npop s\nlen s\npopw s\nenq q 1\nenq q 2\ndeq q\nfront q\ndeqw q\nput t 1 10\nput t 2 20\nfind t 1\ndel t 2\nlen t\ncput c 1 10\ncputw c 2 20\ncget c 1\ncput c 3 30\ncdel c 1\nlen c\nmput m 3\nmpeek m\nmtake m\nresolve p 4\nresolved p\nawait p\nresolve p 5\nbump a 61\ntotal a\natomic\npush s 1\ncheck x eq 9\nor\nget x\natomic\npopw s\nor\nenq q 7\nend\nend\natomic\nend\npopw s\n";

const TOUR_TEXT: &str =
    "1.1 5\n1.2 ok\n1.3 6\n1.4 ok\n1.5 true\n1.6 9\n1.7 ok\n1.8 ok\n1.9 11\n1.10 ok\n1.11 ok\n1.12 ok\n1.13 ok\n1.14 full\n1.15 5\n1.16 5\n1.17 1\n1.18 4\n1.19 ok\n1.20 ok\n1.21 1\n1.22 2\n1.23 2\n1.24 ok\n1.25 ok\n1.26 10\n1.27 20\n1.28 1\n1.29 ok\n1.30 ok\n1.31 10\n1.32 ok\n1.33 10\n1.34 1\n1.35 ok\n1.36 3\n1.37 3\n1.38 ok\n1.39 true\n1.40 4\n1.41 false\n1.42 ok\n1.43 61\n1.44 20 ok\n1.45 -\n1.46 stranded\norder\n1.1\n1.2\n1.3\n1.4\n1.5\n1.6\n1.7\n1.8\n1.9\n1.10\n1.11\n1.12\n1.13\n1.14\n1.15\n1.16\n1.17\n1.18\n1.19\n1.20\n1.21\n1.22\n1.23\n1.24\n1.25\n1.26\n1.27\n1.28\n1.29\n1.30\n1.31\n1.32\n1.33\n1.34\n1.35\n1.36\n1.37\n1.38\n1.39\n1.40\n1.41\n1.42\n1.43\n1.44\n1.45\n1.46\n1.end\nstate\nx 20\ny 7\ns\nq 7\nt 1=10\nc 3=30\nm none\np 4\na 61\n";

#[test]
fn the_tour_of_all_commands_gives_its_text(rt: HostRuntime) -> Result<(), Fail> {
    gives(&rt, rt.alloc(), TOUR, TOUR_TEXT)
}

#[test]
fn the_longest_and_the_widest_table_are_used(rt: HostRuntime) -> Result<(), Fail> {
    let rows = [("1 4096", "t 1=2 5000=7"), ("1024 4096", "t 1=2 5000=7")];
    for (sizes, state) in rows {
        let script = format!(in rt.alloc();
            "kcas 1\ntable t {sizes}\nthread\nput t 5000 6\nput t 1 2\nput t 5000 7\nput t 9 9\ndel t 9\nlen t\n"
        )?;
        let text = format!(in rt.alloc();
            "1.1 ok\n1.2 ok\n1.3 ok\n1.4 ok\n1.5 9\n1.6 2\norder\n1.1\n1.2\n1.3\n1.4\n1.5\n1.6\n1.end\nstate\n{state}\n"
        )?;
        gives(&rt, rt.alloc(), &script, &text)?;
    }
    Ok(())
}

#[test]
fn each_function_and_relation_is_the_one_it_is_called(rt: HostRuntime) -> Result<(), Fail> {
    let rows = [
        ("update x add 4294967295", "12", "11"),
        ("update x max 13", "12", "13"),
        ("update x max 11", "12", "12"),
        ("update x min 11", "12", "11"),
        ("update x min 13", "12", "12"),
        ("update x and 10", "12", "8"),
        ("update x or 3", "12", "15"),
        ("update x xor 5", "12", "9"),
        ("modify x add 3", "ok", "15"),
        ("xchg x 4", "12", "4"),
        ("add x 4294967290", "12", "6"),
        ("incr x", "ok", "13"),
        ("decr x", "ok", "11"),
        ("check x eq 12", "ok", "12"),
        ("check x eq 11", "stranded", "12"),
        ("check x ne 11", "ok", "12"),
        ("check x ne 12", "stranded", "12"),
        ("check x lt 13", "ok", "12"),
        ("check x lt 12", "stranded", "12"),
        ("check x le 12", "ok", "12"),
        ("check x le 11", "stranded", "12"),
        ("check x gt 11", "ok", "12"),
        ("check x gt 12", "stranded", "12"),
        ("check x ge 12", "ok", "12"),
        ("check x ge 13", "stranded", "12"),
    ];
    for (command, reply, value) in rows {
        let script = format!(in rt.alloc(); "kcas 1\nloc x 12\nthread\n{command}\n")?;
        let text = format!(in rt.alloc(); "1.1 {reply}\norder\n1.1\n1.end\nstate\nx {value}\n")?;
        gives(&rt, rt.alloc(), &script, &text)?;
    }
    Ok(())
}

#[test]
fn what_is_no_script_has_its_fault_and_writes_nothing(rt: HostRuntime) -> Result<(), Fail> {
    let rows = [
        ("", 1, Why::Header),
        ("# nothing\n", 1, Why::Header),
        ("kcas 3\n", 1, Why::Header),
        ("kcas 2\nlimit 257\n", 2, Why::BadNumber),
        ("kcas 1\nthread\ncancel 17\n", 3, Why::BadNumber),
        ("kcas 1\nloc x\n", 2, Why::MissingWord),
        ("kcas 1\nthread\nget x\n", 3, Why::UnknownName),
        ("kcas 1\nloc x 5\nthread\nget y\n", 4, Why::UnknownName),
        ("kcas 1\nloc x 4294967296\n", 2, Why::BadNumber),
        ("kcas 1\nloc x 1\nget x\n", 3, Why::StrayWord),
        (
            "kcas 1\nloc x 1\nthread\natomic\nget x\n",
            4,
            Why::UnclosedBlock,
        ),
    ];
    for (script, line, why) in rows {
        let (status, written) = run(&rt, rt.alloc(), script.as_bytes())?;
        ends(&rt, status, Status::Script { part: 0, line, why }, script);
        says(&rt, &written, "", script);
    }
    Ok(())
}

#[test]
fn other_words_are_usage(rt: HostRuntime) -> Result<(), Fail> {
    for word in ["", "runs", "--help", "storm"] {
        let (status, written) = run_behind(&rt, rt.alloc(), &[word], FIRST.as_bytes(), &OpenGate)?;
        ends(&rt, status, Status::Usage, word);
        says(&rt, &written, "", word);
    }
    Ok(())
}

#[test]
fn the_store_that_the_words_name_serves(rt: HostRuntime) -> Result<(), Fail> {
    let alloc = rt.alloc();
    let rows: [(&[&str], StoreName); 5] = [
        (&["run"], StoreName::Kcas),
        (&["run", "--store", "kcas"], StoreName::Kcas),
        (&["run", "--store=kcas"], StoreName::Kcas),
        (&["run", "--store", "lock"], StoreName::Lock),
        (&["run", "--store=lock"], StoreName::Lock),
    ];
    for (words, named) in rows {
        let mut source = SureSource::new(FIRST.as_bytes().to_vec(alloc)?);
        let mut sink = FrailSink::new(alloc, ROOM, Vec::new(alloc))?;
        let mut shelf = no_files(alloc);
        let (status, store) = call(
            &rt,
            alloc,
            words,
            &mut source,
            &mut shelf,
            &mut sink,
            &OpenGate,
        )?;
        ends(&rt, status, Status::Done, "first");
        holds(&rt, store == Some(named), "another store served");
        says(&rt, sink.bytes(), FIRST_TEXT, "first");
    }
    Ok(())
}

// The status of `kcas run` on a script where one read and one write fail, and what it wrote.
pub(crate) fn run_failing<R: Threads + Wait + Sync>(
    rt: &R,
    alloc: Global,
    script: &str,
    failing_read: u64,
    failing_write: u64,
) -> Result<(Status, Vec<u8>), Fail>
    requires read { (1 ≤ failing_read) × (failing_read ≤ 9) }
    requires write { (1 ≤ failing_write) × (failing_write ≤ 9) }
{
    let script = script.as_bytes().to_vec(alloc)?;
    let mut source = FrailSource::new(script, vec![in alloc; failing_read]?);
    let mut sink = FrailSink::new(alloc, ROOM, vec![in alloc; failing_write]?)?;
    let mut shelf = no_files(alloc);
    let words = ["run"];
    let (status, _) = call(
        rt,
        alloc,
        &words,
        &mut source,
        &mut shelf,
        &mut sink,
        &OpenGate,
    )?;
    Ok((status, sink.bytes().to_vec(alloc)?))
}

#[test]
fn each_read_that_fails_is_a_read_fault_and_writes_nothing(rt: HostRuntime) -> Result<(), Fail> {
    for call in 1..5 {
        let (status, written) = run_failing(&rt, rt.alloc(), FIRST, call, 9)?;
        ends(&rt, status, Status::ReadFault, "first");
        says(&rt, &written, "", "first");
    }
    let (status, _) = run_failing(&rt, rt.alloc(), FIRST, 5, 9)?;
    ends(&rt, status, Status::Done, "first");
    Ok(())
}

#[test]
fn each_write_that_fails_is_a_write_fault_behind_a_front_of_the_text(
    rt: HostRuntime,
) -> Result<(), Fail> {
    for call in 1..5 {
        let (status, written) = run_failing(&rt, rt.alloc(), FIRST, 9, call)?;
        ends(&rt, status, Status::WriteFault, "first");
        is(&rt, written.len(), 16 * (call as usize - 1), "bytes");
        holds(&rt, FIRST_TEXT.as_bytes().starts_with(&written), "no front");
    }
    let (status, written) = run_failing(&rt, rt.alloc(), FIRST, 9, 5)?;
    ends(&rt, status, Status::Done, "first");
    says(&rt, &written, FIRST_TEXT, "first");
    Ok(())
}

// Counts the calls and the bytes.
#[derive(Drop)]
struct CountingSink {
    calls: usize,
    bytes: usize,
}

impl Sink for CountingSink {
    ghost written = { λ _. None };

    ghost faults = { λ _. 0 };

    ghost write_gives = { λ _ _ _ _. Unit {0} };

    #[tactic(auto, unfolding(kc_model::specs::Outside::behind))]
    fn write(&mut self, buf: &[u8]) -> Result<usize, Failed> {
        self.calls = self.calls.saturating_add(1);
        self.bytes = self.bytes.saturating_add(buf.len());
        Ok(buf.len())
    }
}

#[test]
fn as_many_commands_as_may_be_are_run(rt: HostRuntime) -> Result<(), Fail> {
    let alloc = rt.alloc();
    let mut script = String::from_str(alloc, "kcas 1\nloc x 0\nthread\n")?;
    let mut text = String::new(alloc);
    let mut order = String::from_str(alloc, "order\n")?;
    for n in 0..4096u32 {
        script.push_str("add x 1\n")?;
        write!(text, "1.{} {n}\n", n + 1)?;
        write!(order, "1.{}\n", n + 1)?;
    }
    text.push_str(&order)?;
    text.push_str("1.end\nstate\nx 4096\n")?;
    for option in STORES {
        let (status, written) = text_of(&rt, alloc, option, &script)?;
        ends(&rt, status, Status::Done, option);
        says(&rt, &written, &text, option);
    }
    Ok(())
}

#[test]
fn a_text_is_written_by_the_page(rt: HostRuntime) -> Result<(), Fail> {
    let alloc = rt.alloc();
    let mut script = String::from_str(alloc, "kcas 1\nloc x 0\nthread\n")?;
    for _ in 0..4096 {
        script.push_str("add x 1\n")?;
    }
    let mut source = SureSource::new(script.as_bytes().to_vec(alloc)?);
    let mut counting = CountingSink { calls: 0, bytes: 0 };
    let mut shelf = no_files(alloc);
    let words = ["run"];
    let (status, _) = call(
        &rt,
        alloc,
        &words,
        &mut source,
        &mut shelf,
        &mut counting,
        &OpenGate,
    )?;
    ends(&rt, status, Status::Done, "a long text");
    let (calls, bytes) = (counting.calls, counting.bytes);
    holds(&rt, 40_000 < bytes, "a short text");
    holds(&rt, calls <= (bytes / 4000).wrapping_add(1), "many writes");
    Ok(())
}

#[test]
fn as_many_locations_as_may_be_are_opened(rt: HostRuntime) -> Result<(), Fail> {
    let alloc = rt.alloc();
    let mut script = String::from_str(alloc, "kcas 1\n")?;
    let mut text = String::from_str(alloc, "1.1 4\norder\n1.1\n1.end\nstate\n")?;
    for n in 0..65_535u32 {
        write!(script, "loc n{n} {}\n", n % 10)?;
        write!(text, "n{n} {}\n", n % 10)?;
    }
    script.push_str("thread\nget n65534\n")?;
    for option in STORES {
        let (status, written) = text_of(&rt, alloc, option, &script)?;
        ends(&rt, status, Status::Done, option);
        says(&rt, &written, &text, option);
    }
    Ok(())
}

#[test]
fn one_byte_past_the_limit_is_too_long(rt: HostRuntime) -> Result<(), Fail> {
    let alloc = rt.alloc();
    let mut script = Vec::from_slice(alloc, b"kcas 1\n")?;
    script.resize(1_048_576, b'#')?;
    let (status, written) = run(&rt, rt.alloc(), &script)?;
    ends(&rt, status, Status::Done, "the longest");
    says(&rt, &written, "order\nstate\n", "the longest");
    script.push(b'#')?;
    let (status, written) = run(&rt, rt.alloc(), &script)?;
    ends(&rt, status, Status::TooLong, "one more");
    says(&rt, &written, "", "one more");
    Ok(())
}

#[test]
fn each_status_has_its_line(rt: HostRuntime) {
    let name_is_bad = Status::Script {
        part: 3,
        line: 12,
        why: Why::BadName,
    };
    let rows = [
        (Status::Done, ""),
        (
            Status::Usage,
            "kcas: usage: kcas run, kcas files SETUP FILE.., kcas storm N, kcas check BUNDLE TEXT, or kcas texts TEXTS PICKS",
        ),
        (name_is_bad, "kcas: part 3 line 12: bad name"),
        (Status::ReadFault, "kcas: reading failed"),
        (Status::WriteFault, "kcas: writing failed"),
        (Status::NoMemory, "kcas: out of memory"),
        (Status::TooLong, "kcas: input too long"),
    ];
    for (status, line) in rows {
        let text = status.line();
        says(&rt, text.as_str().as_bytes(), line, line);
    }
}

#[test]
fn each_test_of_a_text_has_its_words(rt: HostRuntime) {
    let rows = [
        (CheckWhy::Form, "kcas: line 7: wrong form"),
        (CheckWhy::Turn, "kcas: line 7: out of turn"),
        (CheckWhy::Waits, "kcas: line 7: command waits"),
        (CheckWhy::Reply, "kcas: line 7: wrong reply"),
        (CheckWhy::Order, "kcas: line 7: not the canonical order"),
        (CheckWhy::State, "kcas: line 7: wrong state"),
    ];
    for (why, line) in rows {
        let status = Status::Illegal { line: 7, why };
        let text = status.line();
        says(&rt, text.as_str().as_bytes(), line, line);
        is(&rt, status.number() as usize, 8, line);
    }
}

#[test]
fn each_fault_has_its_words(rt: HostRuntime) {
    let rows = [
        (Why::Header, "no header"),
        (Why::UnknownWord, "unknown word"),
        (Why::UnknownName, "unknown name"),
        (Why::RepeatedName, "repeated name"),
        (Why::BadName, "bad name"),
        (Why::BadNumber, "bad number"),
        (Why::WrongKind, "wrong kind"),
        (Why::MissingWord, "missing word"),
        (Why::ExtraWord, "extra word"),
        (Why::UnclosedBlock, "unclosed block"),
        (Why::StrayWord, "word out of place"),
        (Why::TooMany(Limit::Locations), "too many locations"),
        (Why::TooMany(Limit::Threads), "too many threads"),
        (Why::TooMany(Limit::Commands), "too many commands"),
        (Why::TooMany(Limit::Block), "too many commands in a block"),
        (Why::TooMany(Limit::Depth), "too deep"),
        (Why::TooMany(Limit::Texts), "too many texts"),
        (Why::TooMany(Limit::TextBytes), "text too long"),
        (Why::TooMany(Limit::Picks), "too many picks"),
    ];
    for (why, words) in rows {
        says(&rt, why.words().as_bytes(), words, words);
    }
}
