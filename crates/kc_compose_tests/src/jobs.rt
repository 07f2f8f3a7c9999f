//! The transactions of a scheduler, which are made of parts.

ghost use Rattle.std.specs.Prelude.{◌≡◌};

use crate::asserts::{replies, waits};
use crate::yard::{Yard, open};
use kc_cells::{PromiseAct, PromiseOp};
use kc_compose::{Sort, Unless};
use kc_hash::{Hash, HashAct, HashOp};
use kc_jobs::{
    CANCELLED, DONE, RUNNING, WAITING, cancel_job, end_job, release_job, start_job, submit_job,
};
use kc_model::Reply;
use kc_queue::{Queue, QueueAct, QueueOp};
use std::test::Fail;

fn on(queue: Queue, act: QueueAct) -> QueueOp
    ensures { result.queue ≡ queue }
{
    QueueOp { queue, act }
}

fn at(hash: Hash, act: HashAct) -> HashOp
    ensures { result.hash ≡ hash }
{
    HashOp { hash, act }
}

/// Notes that a job waits, and puts it into the line. Where that is full the note stays.
fn note(y: &Yard, job: u32) -> Unless<HashOp, QueueOp>
    ensures states { result.first.hash ≡ y.now.states }
    ensures line { result.second.queue ≡ y.now.line }
{
    Unless {
        first: at(y.states, HashAct::Put(job, WAITING)),
        replies: Sort::Full,
        second: on(y.line, QueueAct::Enq(job)),
    }
}

#[test]
fn a_refusal_takes_its_puts_back(rt: HostRuntime) -> Result<(), Fail> {
    let (y, mut store) = open(rt.alloc())?;
    replies(&rt, &mut store, &on(y.line, QueueAct::Enq(8)), Reply::Unit);
    replies(
        &rt,
        &mut store,
        &submit_job(y.states, y.line, 1),
        Reply::Unit,
    );
    replies(
        &rt,
        &mut store,
        &submit_job(y.states, y.line, 2),
        Reply::Full,
    );
    replies(
        &rt,
        &mut store,
        &at(y.states, HashAct::Find(2)),
        Reply::Empty,
    );
    replies(&rt, &mut store, &note(&y, 2), Reply::Full);
    replies(
        &rt,
        &mut store,
        &at(y.states, HashAct::Find(2)),
        Reply::Value(WAITING),
    );
    replies(
        &rt,
        &mut store,
        &submit_job(y.states, y.line, 3),
        Reply::Full,
    );
    replies(&rt, &mut store, &on(y.line, QueueAct::Len), Reply::Value(2));
    Ok(())
}

#[test]
fn a_job_that_waits_is_cancelled_and_no_other(rt: HostRuntime) -> Result<(), Fail> {
    let (y, mut store) = open(rt.alloc())?;
    replies(
        &rt,
        &mut store,
        &cancel_job(y.states, y.end, 1),
        Reply::Bool(false),
    );
    replies(
        &rt,
        &mut store,
        &submit_job(y.states, y.line, 1),
        Reply::Unit,
    );
    replies(
        &rt,
        &mut store,
        &cancel_job(y.states, y.end, 1),
        Reply::Unit,
    );
    replies(
        &rt,
        &mut store,
        &at(y.states, HashAct::Find(1)),
        Reply::Value(CANCELLED),
    );
    let end = PromiseOp {
        promise: y.end,
        act: PromiseAct::Await,
    };
    replies(&rt, &mut store, &end, Reply::Value(0));
    replies(
        &rt,
        &mut store,
        &cancel_job(y.states, y.end, 1),
        Reply::Bool(false),
    );
    replies(
        &rt,
        &mut store,
        &submit_job(y.states, y.line, 1),
        Reply::Bool(false),
    );
    Ok(())
}

#[test]
fn a_job_starts_where_it_waits(rt: HostRuntime) -> Result<(), Fail> {
    let (y, mut store) = open(rt.alloc())?;
    waits(&rt, &mut store, &release_job(y.line, y.ready));
    replies(
        &rt,
        &mut store,
        &submit_job(y.states, y.line, 1),
        Reply::Unit,
    );
    replies(
        &rt,
        &mut store,
        &submit_job(y.states, y.line, 2),
        Reply::Unit,
    );
    replies(&rt, &mut store, &release_job(y.line, y.ready), Reply::Unit);
    waits(&rt, &mut store, &release_job(y.line, y.ready));
    replies(
        &rt,
        &mut store,
        &start_job(y.ready, y.states),
        Reply::Value(1),
    );
    replies(
        &rt,
        &mut store,
        &at(y.states, HashAct::Find(1)),
        Reply::Value(RUNNING),
    );
    replies(
        &rt,
        &mut store,
        &cancel_job(y.states, y.end, 2),
        Reply::Unit,
    );
    replies(&rt, &mut store, &release_job(y.line, y.ready), Reply::Unit);
    replies(&rt, &mut store, &start_job(y.ready, y.states), Reply::Empty);
    waits(&rt, &mut store, &start_job(y.ready, y.states));
    Ok(())
}

#[test]
fn who_awaits_the_end_of_a_job_has_its_result(rt: HostRuntime) -> Result<(), Fail> {
    let (y, mut store) = open(rt.alloc())?;
    let end = PromiseOp {
        promise: y.end,
        act: PromiseAct::Await,
    };
    waits(&rt, &mut store, &end);
    let finish = end_job(y.states, y.end, 7, 49);
    replies(&rt, &mut store, &finish, Reply::Bool(false));
    replies(
        &rt,
        &mut store,
        &at(y.states, HashAct::Put(7, RUNNING)),
        Reply::Unit,
    );
    replies(&rt, &mut store, &finish, Reply::Unit);
    replies(&rt, &mut store, &finish, Reply::Bool(false));
    replies(&rt, &mut store, &end, Reply::Value(49));
    replies(
        &rt,
        &mut store,
        &at(y.states, HashAct::Find(7)),
        Reply::Value(DONE),
    );
    Ok(())
}
