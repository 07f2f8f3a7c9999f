//! Texts of small scripts, as they are printed, and with one line changed.

use kc_check::{CheckError, CheckWhy, MOST_TEXT, check_text};
use kc_script::{MOST_BYTES, parse};
use std::alloc::Global;
use std::process::Abort;
use std::test::Fail;

const FIRST: &str = "kcas 1\nloc x 5\nthread\nget x\nset x 7\nadd x 1\n";

const RACE: &str = "kcas 1\nloc x 0\nthread\nget x\nthread\nget x\n";

const WAIT: &str = "kcas 1\nloc x 0\nthread\ncheck x eq 1\nthread\nset x 1\n";

// A text of a script, and the line and the test at which it fails, if it does.
type Row = (&'static str, &'static str, Option<(u32, CheckWhy)>);

const ROWS: [Row; 8] = [
    (
        FIRST,
        "1.1 5\n1.2 ok\n1.3 7\norder\n1.1\n1.2\n1.3\n1.end\nstate\nx 8\n",
        None,
    ),
    (
        FIRST,
        "1.1 5\n1.2 ok\n1.3 8\norder\n1.1\n1.2\n1.3\n1.end\nstate\nx 8\n",
        Some((3, CheckWhy::Reply)),
    ),
    (
        FIRST,
        "1.1 5\n1.2 ok\n1.3 7\norder\n1.2\n1.1\n1.3\n1.end\nstate\nx 8\n",
        Some((5, CheckWhy::Turn)),
    ),
    (
        FIRST,
        "1.1 5\n1.2 ok\n1.3 7\norder\n1.1\n1.2\n1.3\n1.end\nstate\nx 9\n",
        Some((10, CheckWhy::State)),
    ),
    (
        FIRST,
        "1.1 5\n1.2 ok\n1.3 7\norder\n1.1\n1.2\n1.3\n1.end\nstate\nx 8",
        Some((10, CheckWhy::Form)),
    ),
    (FIRST, "", Some((1, CheckWhy::Form))),
    (
        RACE,
        "1.1 0\n2.1 0\norder\n2.1\n1.1\n1.end\n2.end\nstate\nx 0\n",
        Some((4, CheckWhy::Order)),
    ),
    (
        WAIT,
        "1.1 ok\n2.1 ok\norder\n1.1\n2.1\n1.end\n2.end\nstate\nx 1\n",
        Some((4, CheckWhy::Waits)),
    ),
];

// What a check of the text of a script answers; nothing where memory is missing.
fn told(alloc: Global, script: &str, text: &str) -> Result<Option<Option<(u32, CheckWhy)>>, Fail> {
    let script = script.as_bytes();
    let text = text.as_bytes();
    if script.len() > MOST_BYTES || text.len() > MOST_TEXT {
        return Err(Fail::from("too long"));
    }
    let Ok(bundle) = parse(alloc, script) else {
        return Ok(None);
    };
    match check_text(alloc, &bundle, text) {
        Ok(()) => Ok(Some(None)),
        Err(CheckError::Fault { line, why }) => Ok(Some(Some((line, why)))),
        Err(CheckError::NoMemory) => Ok(None),
    }
}

// Asserts the line and the test at which the text of a script fails, if it does.
fn fails(
    rt: &impl Abort,
    alloc: Global,
    script: &str,
    text: &str,
    wanted: Option<(u32, CheckWhy)>,
) -> Result<(), Fail> {
    match told(alloc, script, text)? {
        Some(fault) => assert_eq!(rt; fault, wanted, "{text}"),
        None => return Err(Fail::from("no script, or no memory")),
    }
    Ok(())
}

// Asserts it of each of these texts.
fn all_fail(
    rt: &impl Abort,
    alloc: Global,
    script: &str,
    rows: &[(&str, Option<(u32, CheckWhy)>)],
) -> Result<(), Fail> {
    for (text, wanted) in rows {
        fails(rt, alloc, script, text, *wanted)?;
    }
    Ok(())
}

#[test]
fn each_fault_is_told_at_its_line(rt: HostRuntime) -> Result<(), Fail> {
    for (script, text, wanted) in ROWS {
        fails(&rt, rt.alloc(), script, text, wanted)?;
    }
    Ok(())
}

// Run with a failing allocation, whichever it is.
#[test]
fn want_of_memory_changes_no_answer(rt: HostRuntime) -> Result<(), Fail> {
    for (script, text, wanted) in ROWS {
        if let Some(told) = told(rt.alloc(), script, text)? {
            assert_eq!(rt; told, wanted);
        }
    }
    Ok(())
}

#[test]
fn the_form_takes_no_line_that_is_nearly_one(rt: HostRuntime) -> Result<(), Fail> {
    let rows = [
        // A line too many.
        (
            "1.1 5\n1.2 ok\n1.3 7\norder\n1.1\n1.2\n1.3\n1.end\nstate\nx 8\nx 8\n",
            Some((11, CheckWhy::Form)),
        ),
        // A line too few.
        (
            "1.1 5\n1.2 ok\n1.3 7\norder\n1.1\n1.2\n1.3\n1.end\nstate\n",
            Some((10, CheckWhy::Form)),
        ),
        // A leading zero, in a reply and in a place.
        (
            "1.1 05\n1.2 ok\n1.3 7\norder\n1.1\n1.2\n1.3\n1.end\nstate\nx 8\n",
            Some((1, CheckWhy::Form)),
        ),
        (
            "1.1 5\n1.2 ok\n1.3 7\norder\n01.1\n1.2\n1.3\n1.end\nstate\nx 8\n",
            Some((5, CheckWhy::Form)),
        ),
        // No thread or command of this number.
        (
            "1.1 5\n1.2 ok\n1.3 7\norder\n1.1\n2.1\n1.3\n1.end\nstate\nx 8\n",
            Some((6, CheckWhy::Form)),
        ),
        (
            "1.1 5\n1.2 ok\n1.3 7\norder\n1.1\n1.2\n1.4\n1.end\nstate\nx 8\n",
            Some((7, CheckWhy::Form)),
        ),
        // Two spaces, and one at the end.
        (
            "1.1 5\n1.2  ok\n1.3 7\norder\n1.1\n1.2\n1.3\n1.end\nstate\nx 8\n",
            Some((2, CheckWhy::Form)),
        ),
        (
            "1.1 5\n1.2 ok\n1.3 7\norder\n1.1\n1.2\n1.3\n1.end\nstate\nx 8 \n",
            Some((10, CheckWhy::Form)),
        ),
        // The number of a command that stands elsewhere.
        (
            "1.1 5\n1.3 ok\n1.2 7\norder\n1.1\n1.2\n1.3\n1.end\nstate\nx 8\n",
            Some((2, CheckWhy::Form)),
        ),
        // Words that a state line may have, and this state hasn't.
        (
            "1.1 5\n1.2 ok\n1.3 7\norder\n1.1\n1.2\n1.3\n1.end\nstate\nx 8 8\n",
            Some((10, CheckWhy::State)),
        ),
    ];
    all_fail(&rt, rt.alloc(), FIRST, &rows)
}

#[test]
fn numbers_end_at_32_bits(rt: HostRuntime) -> Result<(), Fail> {
    let script = "kcas 1\nloc x 4294967295\nthread\nget x\n";
    let rows = [
        (
            "1.1 4294967295\norder\n1.1\n1.end\nstate\nx 4294967295\n",
            None,
        ),
        (
            "1.1 4294967296\norder\n1.1\n1.end\nstate\nx 4294967295\n",
            Some((1, CheckWhy::Form)),
        ),
        (
            "1.1 4294967294\norder\n1.1\n1.end\nstate\nx 4294967295\n",
            Some((1, CheckWhy::Reply)),
        ),
        (
            "1.1 4294967295\norder\n1.1\n1.end\nstate\nx 4294967296\n",
            Some((6, CheckWhy::State)),
        ),
    ];
    all_fail(&rt, rt.alloc(), script, &rows)
}

#[test]
fn a_reply_has_at_most_16_words(rt: HostRuntime) -> Result<(), Fail> {
    let script =
        "kcas 1\nloc x 0\nthread\natomic\nget x\nset x 1\nget x\nset x 2\nget x\nset x 3\nget x\nset x 4\nget x\nset x 5\nget x\nset x 6\nget x\nset x 7\nget x\nset x 8\nend\n";
    let rows = [
        (
            "1.1 0 ok 1 ok 2 ok 3 ok 4 ok 5 ok 6 ok 7 ok\norder\n1.1\n1.end\nstate\nx 8\n",
            None,
        ),
        (
            "1.1 0 ok 1 ok 2 ok 3 ok 4 ok 5 ok 6 ok 7\norder\n1.1\n1.end\nstate\nx 8\n",
            Some((1, CheckWhy::Reply)),
        ),
        (
            "1.1 0 ok 1 ok 2 ok 3 ok 4 ok 5 ok 6 ok 7 ok 8\norder\n1.1\n1.end\nstate\nx 8\n",
            Some((1, CheckWhy::Form)),
        ),
    ];
    all_fail(&rt, rt.alloc(), script, &rows)
}

#[test]
fn a_cancelled_wait_is_known(rt: HostRuntime) -> Result<(), Fail> {
    let script = "kcas 1\nloc x 0\nthread\ncheck x eq 1\nthread\ncancel 1\n";
    let rows = [
        (
            "1.1 cancelled\n2.1 ok\norder\n2.1\n1.1\n1.end\n2.end\nstate\nx 0\n",
            None,
        ),
        (
            "1.1 stranded\n2.1 ok\norder\n2.1\n1.1\n1.end\n2.end\nstate\nx 0\n",
            Some((1, CheckWhy::Reply)),
        ),
        (
            "1.1 cancelled\n2.1 ok\norder\n1.1\n2.1\n1.end\n2.end\nstate\nx 0\n",
            Some((4, CheckWhy::Waits)),
        ),
    ];
    all_fail(&rt, rt.alloc(), script, &rows)
}

#[test]
fn a_script_has_its_limit(rt: HostRuntime) -> Result<(), Fail> {
    let small = "kcas 2\nlimit 1\nloc x 1\nloc y 2\nthread\nswap x y\n";
    let large = "kcas 2\nlimit 2\nloc x 1\nloc y 2\nthread\nswap x y\n";
    let refused = "1.1 toolarge\norder\n1.1\n1.end\nstate\nx 1\ny 2\n";
    let swapped = "1.1 ok\norder\n1.1\n1.end\nstate\nx 2\ny 1\n";
    fails(&rt, rt.alloc(), small, refused, None)?;
    fails(&rt, rt.alloc(), small, swapped, Some((1, CheckWhy::Reply)))?;
    fails(&rt, rt.alloc(), large, swapped, None)?;
    fails(&rt, rt.alloc(), large, refused, Some((1, CheckWhy::Reply)))?;
    Ok(())
}

// Each text has the fault of each later test too; the first is told.
#[test]
fn the_first_test_is_told(rt: HostRuntime) -> Result<(), Fail> {
    let script = "kcas 1\nloc x 0\nthread\nget x\nget x\nthread\ncheck x eq 1\nthread\nset x 1\n";
    let rows = [
        (
            "1.1 00\n1.2 0\n2.1 ok\n3.1 ok\norder\n1.2\n2.1\n1.1\n3.1\n1.end\n2.end\n3.end\nstate\nx 5\n",
            Some((1, CheckWhy::Form)),
        ),
        (
            "1.1 9\n1.2 0\n2.1 ok\n3.1 ok\norder\n1.2\n2.1\n1.1\n3.1\n1.end\n2.end\n3.end\nstate\nx 5\n",
            Some((6, CheckWhy::Turn)),
        ),
        (
            "1.1 9\n1.2 0\n2.1 ok\n3.1 ok\norder\n2.1\n1.1\n1.2\n3.1\n1.end\n2.end\n3.end\nstate\nx 5\n",
            Some((6, CheckWhy::Waits)),
        ),
        (
            "1.1 9\n1.2 0\n2.1 ok\n3.1 ok\norder\n3.1\n2.1\n1.1\n1.2\n1.end\n2.end\n3.end\nstate\nx 5\n",
            Some((1, CheckWhy::Reply)),
        ),
        (
            "1.1 1\n1.2 1\n2.1 ok\n3.1 ok\norder\n3.1\n2.1\n1.1\n1.2\n1.end\n2.end\n3.end\nstate\nx 5\n",
            Some((7, CheckWhy::Order)),
        ),
        (
            "1.1 1\n1.2 1\n2.1 ok\n3.1 ok\norder\n3.1\n1.1\n1.2\n1.end\n2.1\n2.end\n3.end\nstate\nx 5\n",
            Some((14, CheckWhy::State)),
        ),
    ];
    all_fail(&rt, rt.alloc(), script, &rows)
}
