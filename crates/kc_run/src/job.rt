//! Passes with their threads' records, and apart again.

ghost use Rattle.std.specs.Prelude.{◌≡◌, ◌≤◌, [], length, map, vec_capacity, All, IfOk};
ghost use Rattle.kc_model.specs.declared.footprint.TheConstants.{MOST};
ghost use Rattle.kc_run.specs.Jobs.{Rooms, empty_records, paired, job_pass, list_of};

use kc_history::Records;
use kc_script_bundle::{Command, MOST_COMMANDS};
use std::alloc::{AllocError, Global};

/// A pass, and the records of its thread.
#[derive(Drop)]
pub struct Job<P> {
    pub pass: P,
    pub records: Records,
}

/// Room for a record for each command of a thread, and one for its end, of at most so many locations each.
fn room_for(alloc: Global, commands: &[Command], limit: u32) -> Result<Records, AllocError>
    requires few { length commands.now ≤ MOST_COMMANDS }
    requires limit { limit ≤ MOST }
    ensures { IfOk result (λ records. records ≡ empty_records limit commands.now) }
{
    Records::open(alloc, commands.len() as u32 + 1, limit)
}

/// Room for the records of each thread.
pub fn rooms(
    alloc: Global,
    threads: &[Vec<Command>],
    limit: u32,
) -> Result<Vec<Records>, AllocError>
    requires limit { limit ≤ MOST }
    requires commands { All (λ v. length v.items ≤ MOST_COMMANDS) threads.now }
    ensures { IfOk result (λ v. Rooms limit threads.now v.items) }
{
    let mut all = Vec::with_capacity(alloc, threads.len())?;
    for i in 0..threads.len() {
        let list = room_for(alloc, threads[i].as_slice(), limit)?;
        all.push(list)?;
    }
    Ok(all)
}

/// Each pass with its thread's records.
pub fn pair<P: Drop>(passes: Vec<P>, space: Vec<Records>, mut jobs: Vec<Job<P>>) -> Vec<Job<P>>
    requires same { length passes.items ≡ length space.items }
    requires empty { jobs.items ≡ [] }
    requires room { length passes.items ≤ vec_capacity jobs }
    ensures { result.items ≡ paired passes.items space.items }
{
    let mut space = space.into_iter();
    for pass in passes {
        match space.next() {
            Some(records) => jobs.push_reserved(Job { pass, records }),
            None => unreachable!(),
        }
    }
    jobs
}

/// The passes and the records.
pub fn part<P: Drop>(
    jobs: Vec<Job<P>>,
    mut passes: Vec<P>,
    mut records: Vec<Records>,
) -> (Vec<P>, Vec<Records>)
    requires empty { (passes.items ≡ []) × (records.items ≡ []) }
    requires room { (length jobs.items ≤ vec_capacity passes) × (length jobs.items ≤ vec_capacity records) }
    ensures passes { result.0.items ≡ map job_pass jobs.items }
    ensures records { result.1.items ≡ map list_of jobs.items }
{
    for job in jobs {
        let Job {
            pass,
            records: list,
        } = job;
        passes.push_reserved(pass);
        records.push_reserved(list);
    }
    (passes, records)
}
