//! Tables that grow.

use crate::asserts::{STORES, all_give, begins, closes, ends, text_of};
use kc_top::Status;
use std::alloc::Global;
use std::fmt::Write;
use std::test::Fail;

#[test]
fn a_table_that_grows_gives_its_text(rt: HostRuntime) -> Result<(), Fail> {
    let rows = [
        (
            "kcas 2\ngrow g 4\nthread\nput g 1 10\nput g 2 20\nput g 3 30\nfind g 2\nput g 4 40\nput g 5 50\ndel g 1\nlen g\n",
            "1.1 ok\n1.2 ok\n1.3 ok\n1.4 20\n1.5 ok\n1.6 full\n1.7 10\n1.8 3\norder\n1.1\n1.2\n1.3\n1.4\n1.5\n1.6\n1.7\n1.8\n1.end\nstate\ng 2=20 3=30 4=40\n",
        ),
        (
            "kcas 2\ngrow g 1\nthread\nfind g 7\nput g 7 1\nput g 7 2\nput g 8 3\ndel g 7\nlen g\n",
            "1.1 none\n1.2 ok\n1.3 ok\n1.4 full\n1.5 2\n1.6 0\norder\n1.1\n1.2\n1.3\n1.4\n1.5\n1.6\n1.end\nstate\ng\n",
        ),
    ];
    all_give(&rt, rt.alloc(), &rows)
}

// Four threads put a hundred keys each into one table, thread T the keys from 100 T on.
fn four_threads(alloc: Global) -> Result<String, Fail> {
    let mut script = String::from_str(alloc, "kcas 2\ngrow g 400\n")?;
    for key in 100..500 {
        if key % 100 == 0 {
            script.push_str("thread\n")?;
        }
        write!(script, "put g {key} {}\n", key % 7)?;
    }
    Ok(script)
}

// Each of them is put.
fn their_replies(alloc: Global) -> Result<String, Fail> {
    let mut replies = String::new(alloc);
    for key in 100..500 {
        write!(replies, "{}.{} ok\n", key / 100, key % 100 + 1)?;
    }
    replies.push_str("order\n")?;
    Ok(replies)
}

// And all are there.
fn their_state(alloc: Global) -> Result<String, Fail> {
    let mut state = String::from_str(alloc, "state\ng")?;
    for key in 100..500 {
        write!(state, " {key}={}", key % 7)?;
    }
    state.push_str("\n")?;
    Ok(state)
}

#[test]
fn four_threads_put_into_one_table_that_grows(rt: HostRuntime) -> Result<(), Fail> {
    let alloc = rt.alloc();
    let script = four_threads(alloc)?;
    let replies = their_replies(alloc)?;
    let state = their_state(alloc)?;
    for option in STORES {
        let (status, written) = text_of(&rt, alloc, option, &script)?;
        ends(&rt, status, Status::Done, option);
        begins(&rt, &written, &replies, option);
        closes(&rt, &written, &state, option);
    }
    Ok(())
}
