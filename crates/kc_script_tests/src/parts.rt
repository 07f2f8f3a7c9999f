//! Scripts in parts.

use crate::asserts::{equal, holds};
use kc_cells::{AccAct, AccOp, Accumulator};
use kc_loc::LocOp;
use kc_model::Loc;
use kc_script::{MOST_BYTES, PartError, parse_parts};
use kc_script_bundle::{Bundle, Command, Op};
use kc_script_lines::{Limit, Why};
use std::test::Fail;

// What is read of a setup and two files.
fn read_two(rt: &HostRuntime, setup: &str, first: &str, second: &str) -> Result<Bundle, PartError> {
    let parts = [setup.as_bytes(), first.as_bytes(), second.as_bytes()];
    if parts[0].len() > MOST_BYTES || parts[1].len() > MOST_BYTES || parts[2].len() > MOST_BYTES {
        return Err(PartError::NoMemory);
    }
    let files = [
        Vec::from_slice(rt.alloc(), parts[1])?,
        Vec::from_slice(rt.alloc(), parts[2])?,
    ];
    parse_parts(rt.alloc(), parts[0], &files)
}

// The part, the line and the reason for which they are refused.
fn fault(rt: &HostRuntime, setup: &str, first: &str, second: &str) -> Option<(u32, u32, Why)> {
    match read_two(rt, setup, first, second) {
        Ok(_) | Err(PartError::NoMemory) => None,
        Err(PartError::Fault { part, line, why }) => Some((part, line, why)),
    }
}

#[test]
fn a_fault_of_parts_has_its_part(rt: HostRuntime) {
    let x = "kcas 1\nloc x 0";
    let rows = [
        (x, "incr x", "incr x", None),
        (x, "incr x", "incr y", Some((2, 1, Why::UnknownName))),
        (x, "incr x\nfoo", "bar", Some((1, 2, Why::UnknownWord))),
        (x, "", "\n# no more\n\nfoo", Some((2, 4, Why::UnknownWord))),
        ("", "foo", "", Some((0, 1, Why::Header))),
        ("loc x 0", "incr x", "", Some((0, 1, Why::Header))),
        ("kcas 1\nloc x", "foo", "", Some((0, 2, Why::MissingWord))),
        ("kcas 1\nthread", "", "", Some((0, 2, Why::StrayWord))),
        ("kcas 1\nthread 1", "", "", Some((0, 2, Why::StrayWord))),
        ("kcas 1\natomic", "", "", Some((0, 2, Why::StrayWord))),
        ("kcas 1\nor", "", "", Some((0, 2, Why::StrayWord))),
        ("kcas 1\nend", "", "", Some((0, 2, Why::StrayWord))),
        (
            "kcas 1\nloc x 0\nincr x",
            "",
            "",
            Some((0, 3, Why::StrayWord)),
        ),
        (x, "thread", "", Some((1, 1, Why::StrayWord))),
        (x, "", "incr x\nthread 1", Some((2, 2, Why::StrayWord))),
        (x, "loc y 0\nincr y", "", Some((1, 1, Why::StrayWord))),
        (x, "", "mvar 1", Some((2, 1, Why::StrayWord))),
        (x, "kcas 1", "", Some((1, 1, Why::UnknownWord))),
        (x, "limit 5", "", Some((1, 1, Why::UnknownWord))),
        (x, "grow g 4", "", Some((1, 1, Why::UnknownWord))),
        ("kcas 2", "", "grow g 4", Some((2, 1, Why::StrayWord))),
        (
            "kcas 1\ngrow g 4",
            "foo",
            "",
            Some((0, 2, Why::UnknownWord)),
        ),
        ("kcas 2\ngrow g 4", "put g 1 2", "find g 1", None),
        (
            "kcas 2\nlimit 5",
            "",
            "limit 5",
            Some((2, 1, Why::StrayWord)),
        ),
        ("kcas 2", "limit 5", "", Some((1, 1, Why::StrayWord))),
        ("kcas 2\nlimit 0", "", "", Some((0, 2, Why::BadNumber))),
        (x, "cancel 17", "", Some((1, 1, Why::BadNumber))),
        (x, "cancel 16", "atomic\ncancel 1\nend", None),
        (x, "or", "", Some((1, 1, Why::StrayWord))),
        (x, "", "end", Some((2, 1, Why::StrayWord))),
        (
            x,
            "incr x\natomic\n\nthread",
            "foo",
            Some((1, 2, Why::UnclosedBlock)),
        ),
        (
            x,
            "atomic\natomic\nend\natomic",
            "foo",
            Some((1, 4, Why::UnclosedBlock)),
        ),
        (
            x,
            "incr x",
            "\natomic\nor",
            Some((2, 2, Why::UnclosedBlock)),
        ),
    ];
    for (setup, first, second, expected) in rows {
        assert_eq!(rt;
            fault(&rt, setup, first, second),
            expected,
            "{setup}, {first}, {second}"
        );
    }
}

#[test]
fn the_limits_of_a_thread_are_those_of_its_file(rt: HostRuntime) -> Result<(), Fail> {
    let mut text = String::new(rt.alloc());
    for _ in 0..4096 {
        text.push_str("incr x\n")?;
    }
    let x = "kcas 1\nloc x 0";
    holds(&rt, fault(&rt, x, &text, &text).is_none());
    text.push_str("incr x\n")?;
    equal(
        &rt,
        fault(&rt, x, "incr x", &text),
        Some((2, 4097, Why::TooMany(Limit::Commands))),
    );
    Ok(())
}

// A thread's operations, where all its commands are that.
fn op_in(bundle: &Bundle, thread: usize, i: usize) -> Option<Op> {
    match bundle.threads.get(thread)?.get(i)? {
        Command::One(operation) => Some(*operation),
        Command::Block(_) => None,
    }
}

#[test]
fn a_file_is_a_thread(rt: HostRuntime) {
    let setup = "# demo\nkcas 2\nlimit 5\nloc x 0\nacc a 2\n";
    let Ok(bundle) = read_two(&rt, setup, "bump a 5", "get x\nbump a 6\n") else {
        panic!(rt; "they spell one");
    };
    let acc = Accumulator::layout(Loc(2), 2);
    let bump = |cell, value| Some(Op::Acc(AccOp {
        acc,
        act: AccAct::Bump(cell, value),
    }));
    holds(&rt, op_in(&bundle, 0, 0) == bump(0, 5));
    holds(&rt, op_in(&bundle, 0, 1).is_none());
    holds(
        &rt,
        op_in(&bundle, 1, 0) == Some(Op::Loc(LocOp::Get(Loc(1)))),
    );
    holds(&rt, op_in(&bundle, 1, 1) == bump(1, 6));
    equal(&rt, bundle.threads.len(), 2);
    equal(&rt, bundle.limit, 5);
}

#[test]
fn an_empty_file_is_a_thread_without_commands(rt: HostRuntime) {
    let Ok(bundle) = read_two(&rt, "kcas 1", "", " # nothing") else {
        panic!(rt; "they spell one");
    };
    equal(&rt, bundle.threads.len(), 2);
    holds(
        &rt,
        bundle
            .threads
            .get(0)
            .is_some_and(|commands| commands.is_empty()),
    );
    holds(
        &rt,
        bundle
            .threads
            .get(1)
            .is_some_and(|commands| commands.is_empty()),
    );
}
