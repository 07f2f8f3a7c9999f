//! Commits, one after another and by two threads.

ghost use Rattle.std.specs.Prelude.{◌≡◌, ◌<◌, length};

use crate::one::one;
use kc_loc::{LocOp, Rel};
use kc_locked::{Held, LockPass, LockedStore, Waits, answer_of};
use kc_model::{Answer, Footprint, Loc, OpenError, Reply};
use kc_xt::{Ended, Room, Trial};
use std::alloc::Global;
use std::process::Abort;
use std::sync::Wait;
use std::test::Fail;
use std::thread;

// Adds one to the first location, as often as the pass may commit.
fn count<R: Wait>(rt: &R, store: &LockedStore, mut pass: LockPass) -> LockPass
    requires pass { pass.table ≡ store.now.table }
    requires location { 0 < length store.now.opening }
    ensures { result.table ≡ store.now.table }
{
    while pass.left() > 0 {
        store.commit_waiting(rt, &mut pass, &LocOp::FetchAdd(Loc(0), 1));
    }
    pass
}

#[test]
fn two_threads_count(rt: HostRuntime) -> Result<(), Fail> {
    let alloc = rt.alloc();
    let Ok((store, mut passes)) = LockedStore::open(alloc, &[0], &[1000, 1000, 1]) else {
        panic!(rt; "the store was not opened");
    };
    let (Some(mut last), Some(second), Some(first)) = (passes.pop(), passes.pop(), passes.pop())
    else {
        panic!(rt; "there are three passes");
    };
    let shared = &store;
    let (first, second) = thread::join(
        &rt,
        move || count(&rt, shared, first),
        move || count(&rt, shared, second),
    );
    assert_eq!(rt; first.left() + second.left(), 0);
    assert_eq!(rt;
        one(&rt, &store, &mut last, LocOp::Get(Loc(0))),
        Some(Reply::Value(2000))
    );
    passes.push(first)?;
    passes.push(second)?;
    passes.push(last)?;
    store.finish(passes);
    Ok(())
}

#[test]
fn a_commit_that_would_wait_changes_nothing(rt: HostRuntime) -> Result<(), Fail> {
    let Ok(mut held) = Held::open(rt.alloc(), &[0, 5], 2) else {
        panic!(rt; "the store was not opened");
    };
    let (mut room, mut trial, mut footprint) = (Room::new(), Trial::new(), Footprint::new());
    let until_one = LocOp::Check(Loc(0), Rel::Eq, 1);
    assert_eq!(rt;
        held.commit_into(0, 1, &mut room, &mut trial, &until_one, &mut footprint),
        Err(Waits)
    );
    assert_eq!(rt; footprint.reads.len(), 1);
    assert!(rt; footprint.puts.is_empty());
    let swap = LocOp::Swap(Loc(0), Loc(1));
    let swapped = held.commit_into(0, 1, &mut room, &mut trial, &swap, &mut footprint);
    assert_eq!(rt; swapped, Ok(()));
    assert_eq!(rt; answer_of(&trial), Answer::Reply(Reply::Unit));
    assert_eq!(rt; first_read(&footprint), Some((0, 0)));
    if let Ok(Ended::Done { reply, footprint }) = held.commit(1, 1, &LocOp::Get(Loc(0))) {
        assert_eq!(rt; reply, Reply::Value(5));
        assert_eq!(rt; first_read(&footprint), Some((1, 5)));
    } else {
        panic!(rt; "a look doesn't wait");
    }
    Ok(())
}

// The version and the value of the first read.
fn first_read(footprint: &Footprint) -> Option<(u32, u32)> {
    let read = footprint.reads.as_slice().get(0).copied()?;
    Some((read.version, read.value))
}

// Why a store of zeros with empty shares is not opened.
fn refusal(alloc: Global, values: usize, shares: usize) -> Result<Option<OpenError>, Fail> {
    let values = vec![in alloc; 0; values]?;
    let shares = vec![in alloc; 0; shares]?;
    match LockedStore::open(alloc, &values, &shares) {
        Ok(_) => Ok(None),
        Err(error) => Ok(Some(error)),
    }
}

// Asserts why. In line that costs seconds to prove, and a call a fraction.
fn refuses(rt: &impl Abort, error: Option<OpenError>, want: Option<OpenError>) {
    assert_eq!(rt; error, want);
}

#[test]
fn open_refuses_by_number(rt: HostRuntime) -> Result<(), Fail> {
    let alloc = rt.alloc();
    refuses(
        &rt,
        refusal(alloc, 65537, 65)?,
        Some(OpenError::TooManyLocs),
    );
    refuses(
        &rt,
        refusal(alloc, 65536, 65)?,
        Some(OpenError::TooManyCallers),
    );
    refuses(&rt, refusal(alloc, 3, 0)?, Some(OpenError::TooManyCallers));
    refuses(&rt, refusal(alloc, 65536, 64)?, None);
    refuses(&rt, refusal(alloc, 0, 1)?, None);
    refuses(&rt, refusal(alloc, 3, 2)?, None);
    Ok(())
}
