//! Cancels.

use crate::asserts::{STORES, all_give, begins, closes, ends, is, run_behind, text_of};
use kc_top::{OpenGate, Status};
use std::alloc::Global;
use std::fmt::Write;
use std::test::Fail;

// How often a thread that waits is cancelled.
const TIMES: u32 = 1000;

// How often a short script is run.
const RUNS: u32 = 10;

#[test]
fn a_flag_cancels_one_wait_and_is_taken_back_with_its_block(rt: HostRuntime) -> Result<(), Fail> {
    let rows = [
        (
            "kcas 1\nloc x 0\nthread\ncancel 1\ncheck x eq 1\nget x\ncheck x eq 1\n",
            "1.1 ok\n1.2 cancelled\n1.3 0\n1.4 stranded\norder\n1.1\n1.2\n1.3\n1.4\n1.end\nstate\nx 0\n",
        ),
        (
            "kcas 1\nloc x 0\nthread\natomic\ncancel 1\ncheck x eq 1\nend\ncheck x eq 1\n",
            "1.1 stranded\n1.2 stranded\norder\n1.1\n1.2\n1.end\nstate\nx 0\n",
        ),
        (
            "kcas 2\nloc x 0\nthread\natomic\nset x 2\ncancel 1\ncheck x eq 1\nor\ncancel 16\nget x\nend\ncheck x eq 1\n",
            "1.1 ok 0\n1.2 stranded\norder\n1.1\n1.2\n1.end\nstate\nx 0\n",
        ),
        (
            "kcas 2\nloc x 0\nthread\natomic\ncancel 1\ncancel 2\nend\natomic\nset x 2\ncheck x eq 1\nend\nget x\n",
            "1.1 ok ok\n1.2 cancelled\n1.3 0\norder\n1.1\n1.2\n1.3\n1.end\nstate\nx 0\n",
        ),
    ];
    all_give(&rt, rt.alloc(), &rows)
}

#[test]
fn a_thread_that_waits_is_cancelled_by_another(rt: HostRuntime) -> Result<(), Fail> {
    let script = "kcas 1\npromise p\nthread\nawait p\nthread\ncancel 1\n".as_bytes();
    for option in STORES {
        for _ in 0..RUNS {
            let words = ["run", option];
            let (status, written) = run_behind(&rt, rt.alloc(), &words, script, &OpenGate)?;
            ends(&rt, status, Status::Done, option);
            begins(&rt, &written, "1.1 cancelled\n2.1 ok\norder\n2.1\n", option);
            closes(&rt, &written, "state\np none\n", option);
        }
    }
    Ok(())
}

// Thread 1 waits so many times for what never comes, and counts how often it came back. Thread 2 cancels it as often, each
// time when it has come back.
fn waits(alloc: Global) -> Result<String, Fail> {
    let mut script = String::from_str(alloc, "kcas 1\npromise p\nloc n 0\nthread\n")?;
    for _ in 0..TIMES {
        script.push_str("await p\nincr n\n")?;
    }
    script.push_str("thread\n")?;
    for n in 1..=TIMES {
        write!(script, "cancel 1\ncheck n eq {n}\n")?;
    }
    Ok(script)
}

#[test]
fn a_thousand_cancels_of_a_thread_that_waits_end(rt: HostRuntime) -> Result<(), Fail> {
    let script = waits(rt.alloc())?;
    for option in STORES {
        let (status, written) = text_of(&rt, rt.alloc(), option, &script)?;
        ends(&rt, status, Status::Done, option);
        closes(&rt, &written, "state\np none\nn 1000\n", option);
        let text = str::from_utf8(&written)?;
        let cancelled = text
            .lines()
            .filter(|line| line.ends_with(" cancelled"))
            .count();
        is(&rt, cancelled, TIMES as usize, option);
    }
    Ok(())
}
