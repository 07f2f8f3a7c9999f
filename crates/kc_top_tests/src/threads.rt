//! Scripts of several threads.

use crate::asserts::{
    Counting, STORES, begins, closes, ends, holds, is, run_behind, says, text_of,
};
use crate::runs::run_failing;
use kc_top::{Gate, OpenGate, Status};
use std::alloc::Global;
use std::process::Abort;
use std::sync::Wait;
use std::sync::atomic::{AtomicBool, AtomicU32, Ordering};
use std::test::Fail;
use std::thread;
use std::thread::Threads;

// The turns for which a gate holds a command up.
const MOST_TURNS: u32 = 10_000_000;

// The commands of each thread of the largest script.
const MOST_COMMANDS: u32 = 4096;

/// The script `examples/handover.kcas`, without its comments.
const HANDOVER: &str =
    "kcas 1\nmvar m\nmvar n\nthread\nmput m 1\nmtake n\nthread\nmtake m\nmput n 2\nmtake m\n";

const HANDOVER_TEXT: &str =
    "1.1 ok\n1.2 2\n2.1 1\n2.2 ok\n2.3 stranded\norder\n1.1\n2.1\n2.2\n1.2\n1.end\n2.3\n2.end\nstate\nm none\nn none\n";

// So many threads, each with so many times this command.
fn team(
    alloc: Global,
    head: &str,
    threads: u32,
    command: &str,
    count: u32,
) -> Result<String, Fail> {
    let mut script = String::from_str(alloc, head)?;
    for _ in 0..threads {
        script.push_str("thread\n")?;
        for _ in 0..count {
            script.push_str(command)?;
        }
    }
    Ok(script)
}

// How many different numbers below so many are replied.
fn replies(alloc: Global, text: &str, most: usize) -> Result<usize, Fail> {
    let mut seen = vec![in alloc; false; most]?;
    for line in text.lines() {
        if let Some((_, reply)) = line.split_once(' ')
            && let Ok(value) = reply.parse::<usize>()
            && let Some(place) = seen.get_mut(value)
        {
            *place = true;
        }
    }
    Ok(seen.iter().filter(|s| **s).count())
}

#[test]
fn two_threads_add_to_one_location(rt: HostRuntime) -> Result<(), Fail> {
    let alloc = rt.alloc();
    let script = team(alloc, "kcas 1\nloc x 0\n", 2, "add x 1\n", 1000)?;
    for option in STORES {
        let (status, written) = text_of(&rt, alloc, option, &script)?;
        ends(&rt, status, Status::Done, option);
        closes(&rt, &written, "state\nx 2000\n", option);
        let text = str::from_utf8(&written)?;
        let Some((shown, _)) = text.split_once("order\n") else {
            return Err(Fail::from("there is no order"));
        };
        is(&rt, replies(alloc, shown, 2000)?, 2000, option);
    }
    Ok(())
}

#[test]
fn values_are_handed_over_by_waiting(rt: HostRuntime) -> Result<(), Fail> {
    let rows = [
        (HANDOVER, HANDOVER_TEXT, "state\nm none\nn none\n"),
        (
            "kcas 1\nqueue q 4\nthread\nenq q 7\nenq q 8\nenq q 9\nthread\ndeqw q\ndeqw q\ndeqw q\n",
            "1.1 ok\n1.2 ok\n1.3 ok\n2.1 7\n2.2 8\n2.3 9\norder\n",
            "state\nq\n",
        ),
        (
            "kcas 1\nmvar m\nmvar n\nthread\nmput m 1\nmtake n\nthread\nmtake m\nmput n 2\n",
            "1.1 ok\n1.2 2\n2.1 1\n2.2 ok\norder\n1.1\n2.1\n2.2\n1.2\n",
            "state\nm none\nn none\n",
        ),
    ];
    for (script, front, end) in rows {
        for option in STORES {
            let words = ["run", option];
            let (status, written) = run_behind(
                &rt,
                rt.alloc(),
                &words,
                script.as_bytes(),
                &OpenGate,
            )?;
            ends(&rt, status, Status::Done, script);
            begins(&rt, &written, front, script);
            closes(&rt, &written, end, script);
        }
    }
    Ok(())
}

// Holds thread 1's command 1 up until thread 2's command 1 was answered.
#[derive(Drop)]
struct Holding {
    answered: AtomicBool,
    used_up: AtomicBool,
}

impl Gate for Holding {
    fn before(&self, thread: u32, number: u32) {
        if (thread, number) != (1, 1) {
            return;
        }
        for _ in 0..MOST_TURNS {
            if self.answered.load(Ordering::SeqCst) {
                return;
            }
            thread::yield_now();
        }
        self.used_up.store(true, Ordering::SeqCst);
    }

    fn after(&self, thread: u32, number: u32) {
        if (thread, number) == (2, 1) {
            self.answered.store(true, Ordering::SeqCst);
        }
    }
}

#[test]
fn a_thread_that_is_held_up_waits_for_another(rt: HostRuntime) -> Result<(), Fail> {
    let alloc = rt.alloc();
    let script = team(alloc, "kcas 1\nloc x 0\n", 2, "incr x\n", 1)?;
    for option in STORES {
        let gate = Holding {
            answered: AtomicBool::new(false),
            used_up: AtomicBool::new(false),
        };
        let words = ["run", option];
        let (status, written) = run_behind(&rt, alloc, &words, script.as_bytes(), &gate)?;
        ends(&rt, status, Status::Done, option);
        holds(&rt, !gate.used_up.load(Ordering::SeqCst), option);
        begins(&rt, &written, "1.1 ok\n2.1 ok\norder\n2.1\n1.1\n", option);
        closes(&rt, &written, "state\nx 2\n", option);
    }
    Ok(())
}

// Holds each thread's command 1 up until so many threads have come to it.
#[derive(Drop)]
struct Meeting {
    threads: u32,
    came: AtomicU32,
    used_up: AtomicBool,
}

impl Gate for Meeting {
    fn before(&self, _thread: u32, number: u32) {
        if number != 1 {
            return;
        }
        self.came.fetch_add(1, Ordering::SeqCst);
        for _ in 0..MOST_TURNS {
            if self.came.load(Ordering::SeqCst) >= self.threads {
                return;
            }
            thread::yield_now();
        }
        self.used_up.store(true, Ordering::SeqCst);
    }

    fn after(&self, _thread: u32, _number: u32) {}
}

#[test]
fn all_threads_of_a_script_run_at_the_same_time(rt: HostRuntime) -> Result<(), Fail> {
    let alloc = rt.alloc();
    let script = team(alloc, "kcas 1\nloc x 0\n", 16, "incr x\n", 1)?;
    for option in STORES {
        let gate = Meeting {
            threads: 16,
            came: AtomicU32::new(0),
            used_up: AtomicBool::new(false),
        };
        let words = ["run", option];
        let (status, written) = run_behind(&rt, alloc, &words, script.as_bytes(), &gate)?;
        ends(&rt, status, Status::Done, option);
        holds(&rt, !gate.used_up.load(Ordering::SeqCst), option);
        closes(&rt, &written, "state\nx 16\n", option);
    }
    Ok(())
}

#[test]
fn each_command_of_a_script_runs_once(rt: HostRuntime) -> Result<(), Fail> {
    let alloc = rt.alloc();
    let script = team(alloc, "kcas 1\nloc x 0\n", 4, "incr x\n", 25)?;
    for option in STORES {
        let gate = Counting::new();
        let words = ["run", option];
        let (status, written) = run_behind(&rt, alloc, &words, script.as_bytes(), &gate)?;
        ends(&rt, status, Status::Done, option);
        closes(&rt, &written, "state\nx 100\n", option);
        gate.counted(&rt, 100);
    }
    Ok(())
}

#[test]
fn ends_that_fail_are_told_of_two_threads(rt: HostRuntime) -> Result<(), Fail> {
    for call in 1..7 {
        let (status, written) = run_failing(&rt, rt.alloc(), HANDOVER, 9, call)?;
        ends(&rt, status, Status::WriteFault, "handover");
        is(&rt, written.len(), 16 * (call as usize - 1), "bytes");
        holds(
            &rt,
            HANDOVER_TEXT.as_bytes().starts_with(&written),
            "no front",
        );
    }
    let (status, written) = run_failing(&rt, rt.alloc(), HANDOVER, 3, 9)?;
    ends(&rt, status, Status::ReadFault, "handover");
    says(&rt, &written, "", "handover");
    Ok(())
}

// ---- the largest script, replayed

// What a thread's command is: all are on the locations a and b.
#[derive(Clone, Copy)]
enum Does {
    AddToA,
    RaiseB,
    LookAtA,
    Swap,
}

fn command_of(thread: u32, number: u32) -> Does {
    match thread.wrapping_mul(7).wrapping_add(number) % 4 {
        0 => Does::AddToA,
        1 => Does::RaiseB,
        2 => Does::LookAtA,
        _ => Does::Swap,
    }
}

fn line_of(does: Does) -> &'static str {
    match does {
        Does::AddToA => "add a 1\n",
        Does::RaiseB => "incr b\n",
        Does::LookAtA => "get a\n",
        Does::Swap => "swap a b\n",
    }
}

// The number that is replied, None for `ok`, and the values then.
fn made_of(does: Does, a: u32, b: u32) -> (Option<u32>, u32, u32) {
    match does {
        Does::AddToA => (Some(a), a.wrapping_add(1), b),
        Does::RaiseB => (None, a, b.wrapping_add(1)),
        Does::LookAtA => (Some(a), a, b),
        Does::Swap => (None, b, a),
    }
}

fn largest(alloc: Global) -> Result<String, Fail> {
    let mut script = String::from_str(alloc, "kcas 1\nloc a 0\nloc b 0\n")?;
    for thread in 1..=16u32 {
        script.push_str("thread\n")?;
        for number in 1..=MOST_COMMANDS {
            script.push_str(line_of(command_of(thread, number)))?;
        }
    }
    Ok(script)
}

// The replies of all commands, thread by thread.
fn printed_replies(alloc: Global, shown: &str) -> Result<Vec<Option<u32>>, Fail> {
    let mut replies = Vec::new(alloc);
    for line in shown.lines() {
        if let Some((_, reply)) = line.split_once(' ') {
            replies.push(reply.parse::<u32>().ok())?;
        }
    }
    Ok(replies)
}

// The thread and the number of an order line; None at an end.
fn label_of(line: &str) -> Option<(u32, u32)> {
    let (thread, number) = line.split_once('.')?;
    Some((thread.parse::<u32>().ok()?, number.parse::<u32>().ok()?))
}

// Replays the commands in this order: how many reply what is printed, and the values at last. Each thread's come in
// their own order.
fn replayed(
    alloc: Global,
    order: &str,
    replies: &[Option<u32>],
) -> Result<(usize, u32, u32), Fail> {
    let mut next = vec![in alloc; 1u32; 17]?;
    let mut right: usize = 0;
    let (mut a, mut b) = (0, 0);
    for line in order.lines() {
        let Some((thread, number)) = label_of(line) else {
            continue;
        };
        let (reply, after, other) = made_of(command_of(thread, number), a, b);
        (a, b) = (after, other);
        let place = thread
            .wrapping_sub(1)
            .wrapping_mul(MOST_COMMANDS)
            .wrapping_add(number)
            .wrapping_sub(1);
        if let Some(due) = next.get_mut(thread as usize)
            && *due == number
            && replies.get(place as usize) == Some(&reply)
        {
            *due = number.wrapping_add(1);
            right = right.wrapping_add(1);
        }
    }
    Ok((right, a, b))
}

// Asserts that each command of the largest script replies what its place in the printed order makes, and that the values at
// last are those too.
fn right_of_largest<R: Threads + Wait + Sync + Abort>(
    rt: &R,
    alloc: Global,
    option: &str,
) -> Result<(), Fail> {
    let (_, written) = text_of(rt, alloc, option, &largest(alloc)?)?;
    let text = str::from_utf8(&written)?;
    let Some((shown, rest)) = text.split_once("order\n") else {
        return Err(Fail::from("there is no order"));
    };
    let Some((order, state)) = rest.split_once("state\n") else {
        return Err(Fail::from("there is no state"));
    };
    let replies = printed_replies(alloc, shown)?;
    let (right, a, b) = replayed(alloc, order, &replies)?;
    is(rt, right, 65_536, option);
    let last = format!(in alloc; "a {a}\nb {b}\n")?;
    says(rt, state.as_bytes(), &last, option);
    Ok(())
}

#[test]
fn the_largest_script_is_right_in_the_printed_order(rt: HostRuntime) -> Result<(), Fail> {
    right_of_largest(&rt, rt.alloc(), "--store=lock")
}

#[test]
fn the_largest_script_is_right_on_the_lock_free_store(rt: HostRuntime) -> Result<(), Fail> {
    right_of_largest(&rt, rt.alloc(), "--store=kcas")
}
