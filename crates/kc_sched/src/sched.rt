//! A scheduler, where its parts lie, and what holds of it.

ghost use Rattle.std.specs.Prelude.{◌≤◌, IfOk, length};
ghost use Rattle.kc_hash.specs.Meaning.{hash_cells_end};
ghost use Rattle.kc_lay.specs.Placed.{HoldsAtOpening};
ghost use Rattle.kc_sched.specs.Sched.{EachGoes, GoesSo, HasJobs, IsSchedLaid};

use kc_jobs_laws::Jobs;
use kc_keep::{Invariant, Stepping};
use kc_lay::Layout;
use kc_queue::Queue;
use std::alloc::{AllocError, Global};

/// How many jobs there are: they are numbered from 0.
pub const JOBS: u32 = 6;

/// The line of the jobs that wait for their time, the line of those that may run, and what is known of each job, one behind
/// another.
#[derive(Clone, Copy)]
pub struct Sched {
    pub line: Queue,
    pub ready: Queue,
    pub jobs: Jobs,
}

/// Each act takes a job on by one step at most: it comes, starts, is cancelled, or ends.
impl Invariant for Sched {
    ghost holds = { HasJobs };

    ghost is_one = { GoesSo };

    fn is_kept(&self) {}
}

impl Stepping for Sched {
    ghost steps = { EachGoes };

    fn is_stepped(&self) {}
}

/// A scheduler with no job, and the layout in which it lies.
///
/// # Errors
///
/// - AllocError: there is no memory for the layout
pub fn lay_sched(alloc: Global) -> Result<(Sched, Layout), AllocError>
    ensures laid { IfOk result (λ t. IsSchedLaid t.0) }
    ensures within { IfOk result (λ t. hash_cells_end t.0.jobs.states ≤ length t.1) }
    ensures opens { IfOk result (λ t. HoldsAtOpening (HasJobs t.0) t.1) }
{
    let mut layout = Layout::new(alloc);
    let line = layout.queue(JOBS)?;
    let ready = layout.queue(JOBS)?;
    let jobs = Jobs::lay(&mut layout, JOBS)?;
    Ok((Sched { line, ready, jobs }, layout))
}
