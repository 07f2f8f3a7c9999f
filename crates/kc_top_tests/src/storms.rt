//! Storms.

use crate::asserts::{Counting, STORES, call, ends, holds, no_files, says};
use kc_model::{FrailSink, SureSource};
use kc_top::{Gate, OpenGate, Status, StoreName};
use std::alloc::Global;
use std::sync::Wait;
use std::test::Fail;
use std::thread::Threads;

const STORM_0: &str =
    "storm 0\ncommits 8004\nok 8000\nl0 35274\nl1 32514\nl2 35314\nl3 34844\nl4 32048\nl5 34797\nl6 29667\nl7 37103\na 262229\n";

const STORM_7: &str =
    "storm 7\ncommits 8004\nok 8000\nl0 30353\nl1 32914\nl2 35889\nl3 32471\nl4 30859\nl5 33745\nl6 33833\nl7 32873\na 261635\n";

const STORM_LAST: &str =
    "storm 4294967295\ncommits 8004\nok 8000\nl0 40823\nl1 33262\nl2 33715\nl3 37259\nl4 27450\nl5 36223\nl6 28180\nl7 30420\na 262859\n";

// What these words come to on a source and a shelf of nothing, and which store served.
fn asked<R: Threads + Wait + Sync, G: Gate>(
    rt: &R,
    alloc: Global,
    words: &[&str],
    gate: &G,
) -> Result<(Status, Vec<u8>, Option<StoreName>), Fail> {
    let mut source = SureSource::new(Vec::new(alloc));
    let mut shelf = no_files(alloc);
    let mut sink = FrailSink::new(alloc, 1000, Vec::new(alloc))?;
    let (status, store) = call(rt, alloc, words, &mut source, &mut shelf, &mut sink, gate)?;
    Ok((status, sink.bytes().to_vec(alloc)?, store))
}

#[test]
fn a_storm_writes_its_summary_at_each_run(rt: HostRuntime) -> Result<(), Fail> {
    let rows: [(&[&str], &str, StoreName); 6] = [
        (&["storm", "0"], STORM_0, StoreName::Kcas),
        (&["storm", "7"], STORM_7, StoreName::Kcas),
        (
            &["storm", "--store", "kcas", "007"],
            STORM_7,
            StoreName::Kcas,
        ),
        (&["storm", "4294967295"], STORM_LAST, StoreName::Kcas),
        (&["storm", "--store=lock", "7"], STORM_7, StoreName::Lock),
        (
            &["storm", "--store", "lock", "4294967295"],
            STORM_LAST,
            StoreName::Lock,
        ),
    ];
    for (words, summary, named) in rows {
        let (status, written, store) = asked(&rt, rt.alloc(), words, &OpenGate)?;
        ends(&rt, status, Status::Done, summary);
        says(&rt, &written, summary, summary);
        holds(&rt, store == Some(named), "another store served");
    }
    Ok(())
}

#[test]
fn other_words_are_no_storm(rt: HostRuntime) -> Result<(), Fail> {
    let rows: [&[&str]; 6] = [
        &["storm"],
        &["storm", "-1"],
        &["storm", "4294967296"],
        &["storm", "x"],
        &["storm", ""],
        &["storm", "1", "2"],
    ];
    for words in rows {
        let (status, written, store) = asked(&rt, rt.alloc(), words, &OpenGate)?;
        ends(&rt, status, Status::Usage, "no storm");
        says(&rt, &written, "", "no storm");
        holds(&rt, store.is_none(), "a store served");
    }
    Ok(())
}

#[test]
fn each_command_of_a_storm_passes_the_gate(rt: HostRuntime) -> Result<(), Fail> {
    for option in STORES {
        let gate = Counting::new();
        let (status, written, _) = asked(&rt, rt.alloc(), &["storm", option, "0"], &gate)?;
        ends(&rt, status, Status::Done, option);
        says(&rt, &written, STORM_0, option);
        gate.counted(&rt, 8000);
    }
    Ok(())
}
