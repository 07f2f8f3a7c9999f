//! Threads over a shared store.

ghost use Rattle.std.specs.Prelude.{◌≡◌, ◌+◌, ◌≤◌, ◌<◌, ℕ, All, length, map, slice_index_or, vec_capacity, IfOk, IfErr};
ghost use Rattle.kc_history.specs.Callers.{IsBelowCallers, IsLegalFrom};
ghost use Rattle.kc_history.specs.Records.{lists_of};
ghost use Rattle.kc_model.specs.declared.footprint.TheConstants.{MOST};
ghost use Rattle.kc_script_bundle.specs.declared.bundle.TheConstants.{MOST_THREADS};
ghost use Rattle.kc_script_runs.specs.Labels.{ThreadsHaveRecords};
ghost use Rattle.kc_script_runs.specs.Threads.{AreRunBy};
ghost use Rattle.kc_run.specs.Run.{CanRunAll};
ghost use Rattle.kc_run.specs.Shared.{commit_gives};
ghost use Rattle.kc_run.specs.Jobs.{AllMayRun, JobRan, JobReady, row_at};

use crate::gate::Gate;
use crate::job::{Job, pair, part, rooms};
use crate::shared::Shared;
use crate::thread::run_thread;
use kc_history::Records;
use kc_script_bundle::Command;
use std::alloc::Global;
use std::sync::Wait;
use std::thread;
use std::thread::Threads;

/// There was no memory, and no commit was made.
#[derive(Drop)]
pub struct RunRefused<S: Shared> {
    pub shared: S,
    pub passes: Vec<S::Pass>,
}

/// Runs each thread's commands, each on its own pass, and shows the one history. The records lie by thread, one for each
/// command and then one for the thread's end. Their memory is taken before the first command. To start a thread takes
/// some too: where that is refused the threads run one behind another, so that those that wait for each other don't end.
///
/// # Errors
///
/// Want of memory hands back the store and the passes; no commit was made.
pub fn run_threads<S: Shared, G: Gate, R: Threads + Wait + Sync>(
    rt: &R,
    alloc: Global,
    threads: &[Vec<Command>],
    limit: u32,
    shared: S,
    passes: Vec<S::Pass>,
    gate: &G,
) -> Result<(Vec<Records>, S::Whole), RunRefused<S>>
    requires limit { (0 < limit) × (limit ≤ MOST) }
    requires some { 0 < length threads.now }
    requires few { length threads.now ≤ MOST_THREADS }
    requires callers { length threads.now ≡ S.callers shared }
    requires passes { AllMayRun S.belongs S.number S.left S.own shared 0 threads.now passes.items }
    requires locations { 0 < length (S.opening shared) }
    requires commands { All (λ v. CanRunAll (length (S.opening shared)) v.items) threads.now }
    ensures began { IfOk result (λ r. S.began r.1 ≡ S.opening shared) }
    ensures legal { IfOk result (λ r. IsLegalFrom (S.opening shared) (S.history r.1)) }
    ensures run { IfOk result (λ r. AreRunBy (commit_gives S.enters_looks) limit (length (S.opening shared)) 0 (S.history r.1) (map (λ v. v.items) threads.now) (lists_of r.0.items)) }
    ensures threads { IfOk result (λ r. ThreadsHaveRecords 1 (map (λ v. v.items) threads.now) (lists_of r.0.items)) }
    ensures nobody_else { IfOk result (λ r. IsBelowCallers (length threads.now) (S.history r.1)) }
    ensures refused { IfErr result (λ e. (e.shared ≡ shared) × (e.passes.items ≡ passes.items)) }
{
    let n = threads.len();
    let (Ok(space), Ok(jobs), Ok(back), Ok(out)) = (
        rooms(alloc, threads, limit),
        Vec::with_capacity(alloc, n),
        Vec::with_capacity(alloc, n),
        Vec::with_capacity(alloc, n),
    ) else {
        return Err(RunRefused { shared, passes });
    };
    let jobs = run_jobs(rt, &shared, gate, threads, limit, pair(passes, space, jobs));
    let (passes, records) = part(jobs, back, out);
    Ok((records, shared.finish(passes)))
}

// Runs each job in a thread of its own.
fn run_jobs<S: Shared, G: Gate, R: Threads + Wait + Sync>(
    rt: &R,
    shared: &S,
    gate: &G,
    threads: &[Vec<Command>],
    limit: u32,
    mut jobs: Vec<Job<S::Pass>>,
) -> Vec<Job<S::Pass>>
    requires limit { (0 < limit) × (limit ≤ MOST) }
    requires threads { (length threads.now ≡ length jobs.items) × (length threads.now ≤ MOST_THREADS) }
    requires some { 0 < length jobs.items }
    requires locations { 0 < length (S.opening shared.now) }
    requires commands { All (λ v. CanRunAll (length (S.opening shared.now)) v.items) threads.now }
    requires ready { (i : ℕ) (d : _) → i < length jobs.items → JobReady S.belongs S.number S.left S.own limit shared.now i (row_at threads.now i) (slice_index_or jobs.items i d) }
    ensures len { length result.items ≡ length jobs.items }
    ensures ran { (i : ℕ) (d : _) → i < length jobs.items → JobRan limit (commit_gives S.enters_looks) S.belongs S.number S.own S.opening shared.now i (row_at threads.now i) (slice_index_or result.items i d) }
{
    let count = jobs.len();
    let run = |i: usize, job: &mut Job<S::Pass>|
        requires { (0 < limit) × (limit ≤ MOST) × (i < length threads.now) × (length threads.now ≤ MOST_THREADS) × (0 < length (S.opening shared.now)) × All (λ v. CanRunAll (length (S.opening shared.now)) v.items) threads.now × JobReady S.belongs S.number S.left S.own limit shared.now i (row_at threads.now i) job.now }
        ensures { JobRan limit (commit_gives S.enters_looks) S.belongs S.number S.own S.opening shared.entry.now i (row_at threads.entry.now i) job.exit.now }
    { run_thread(rt, shared, gate, threads, limit, i, job) };
    thread::for_each_mut(rt, jobs.as_mut_slice(), count, &run);
    jobs
}
