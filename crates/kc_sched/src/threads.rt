//! What the threads do: a client, a clock and two workers.

ghost use Rattle.std.specs.Prelude.{◌≡◌, ◌<◌};
ghost use Rattle.kc_keep.specs.Only.{Serves};
ghost use Rattle.kc_sched.specs.Sched.{GoesSo, HasSched};

use crate::sched::{JOBS, Sched};
use kc_keep::{commit_kept, serving_adds_up};
use kc_model::Reply;
use kc_store::{Caller, Store};
use std::sync::Wait;

/// What a thread counted: jobs that it submitted, those that it cancelled or ended, ends that it was told, and the sum of the
/// results that it was told, and of those that a cancelled job would have had.
#[derive(Clone, Copy)]
pub struct Tally {
    pub submitted: u32,
    pub settled: u32,
    pub told: u32,
    pub results: u32,
}

const NONE: Tally = Tally {
    submitted: 0,
    settled: 0,
    told: 0,
    results: 0,
};

// A job's result, which isn't 0.
fn result_of(job: u32) -> u32 {
    job.wrapping_mul(job).wrapping_add(1)
}

/// Submits all jobs, and cancels each second one, if it still waits. Then it waits for each job's end.
pub fn ask<R: Wait>(rt: &R, store: &Store, mut client: Caller, sched: &Sched) -> (Caller, Tally)
    requires client { client.of ≡ store.now }
    requires sched { HasSched sched.now store.now.locations }
    ensures { Serves (GoesSo sched.now) client result.0 }
{
    serving_adds_up(sched);
    let mut tally = NONE;
    for job in 0..JOBS {
        submit(rt, store, &mut client, sched, job, &mut tally);
    }
    for job in 0..JOBS {
        let end = sched.jobs.await_end(job);
        if let Some(Reply::Value(result)) = commit_kept(rt, store, &mut client, sched, &end) {
            let full = if result == 0 { result_of(job) } else { result };
            tally.told = tally.told.wrapping_add(1);
            tally.results = tally.results.wrapping_add(full);
        }
    }
    (client, tally)
}

fn submit<R: Wait>(
    rt: &R,
    store: &Store,
    client: &mut Caller,
    sched: &Sched,
    job: u32,
    tally: &mut Tally,
)
    requires client { client.old.of ≡ store.now }
    requires sched { HasSched sched.now store.now.locations }
    requires job { job < JOBS }
    ensures { Serves (GoesSo sched.now) client.old client.new }
{
    serving_adds_up(sched);
    let enter = sched.jobs.submit(sched.line, job);
    if commit_kept(rt, store, client, sched, &enter) == Some(Reply::Unit) {
        tally.submitted = tally.submitted.wrapping_add(1);
    }
    if job % 2 == 1 {
        let cancel = sched.jobs.cancel(job);
        if commit_kept(rt, store, client, sched, &cancel) == Some(Reply::Unit) {
            tally.settled = tally.settled.wrapping_add(1);
        }
    }
}

/// Lets as many jobs run as there are, one after another.
pub fn tick<R: Wait>(rt: &R, store: &Store, mut clock: Caller, sched: &Sched) -> Caller
    requires clock { clock.of ≡ store.now }
    requires sched { HasSched sched.now store.now.locations }
    ensures { Serves (GoesSo sched.now) clock result }
{
    serving_adds_up(sched);
    let release = sched.jobs.release(sched.line, sched.ready);
    for _ in 0..JOBS {
        commit_kept(rt, store, &mut clock, sched, &release);
    }
    clock
}

/// Takes half of the jobs, and ends each that it could start.
pub fn work<R: Wait>(rt: &R, store: &Store, mut worker: Caller, sched: &Sched) -> (Caller, Tally)
    requires worker { worker.of ≡ store.now }
    requires sched { HasSched sched.now store.now.locations }
    ensures { Serves (GoesSo sched.now) worker result.0 }
{
    serving_adds_up(sched);
    let mut tally = NONE;
    for _ in 0..JOBS / 2 {
        one_job(rt, store, &mut worker, sched, &mut tally);
    }
    (worker, tally)
}

fn one_job<R: Wait>(rt: &R, store: &Store, worker: &mut Caller, sched: &Sched, tally: &mut Tally)
    requires worker { worker.old.of ≡ store.now }
    requires sched { HasSched sched.now store.now.locations }
    ensures { Serves (GoesSo sched.now) worker.old worker.new }
{
    serving_adds_up(sched);
    let start = sched.jobs.start(sched.ready);
    if let Some(Reply::Value(job)) = commit_kept(rt, store, worker, sched, &start) {
        if job < JOBS {
            let end = sched.jobs.end(job, result_of(job));
            if commit_kept(rt, store, worker, sched, &end) == Some(Reply::Unit) {
                tally.settled = tally.settled.wrapping_add(1);
            }
        }
    }
}
