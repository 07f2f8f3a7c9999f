//! The bundle of a storm.

use crate::asserts::equal;
use kc_loc::{Fun, LocOp};
use kc_model::Loc;
use kc_script_bundle::{Command, Op};
use kc_script_storm::{COMMANDS, THREADS, storm};
use std::test::Fail;

#[test]
fn a_storm_is_made_of_its_number(rt: HostRuntime) -> Result<(), Fail> {
    let bundle = storm(rt.alloc(), 0)?;
    equal(&rt, bundle.objects.len(), 9);
    equal(&rt, bundle.threads.len(), THREADS as usize);
    for thread in &bundle.threads {
        equal(&rt, thread.len(), COMMANDS as usize);
    }
    let second = bundle.threads.get(1).and_then(|thread| thread.first());
    let Some(Command::One(operation)) = second else {
        return Err(Fail::from("no operation"));
    };
    equal(
        &rt,
        *operation,
        Op::Loc(LocOp::Modify(Loc(2), Fun::Add(61))),
    );
    Ok(())
}
