//! The jobs, and the acts on them.

ghost use Rattle.std.specs.Prelude.{◌≡◌, ◌≤◌, ◌<◌, ◌+◌, ◌*◌, false, IfOk, length};
ghost use Rattle.kc_cells.specs.Promise.{promise_meaning};
ghost use Rattle.kc_cells.specs.declared.promise.PromiseAct.TheVariants as PromiseAct;
ghost use Rattle.kc_compose.specs.Found.{moves_item};
ghost use Rattle.kc_compose.specs.declared.sort.Sort.TheVariants as Sort;
ghost use Rattle.kc_hash.specs.declared.operation.HashAct.TheVariants as HashAct;
ghost use Rattle.kc_hash.specs.Meaning.{hash_cells_end};
ghost use Rattle.kc_jobs.specs.declared.jobs.TheConstants.{CANCELLED, DONE, RUNNING, WAITING};
ghost use Rattle.kc_jobs_laws.specs.Acts.{moves_meaning, settles_meaning, starts_meaning, starts_next, submits_job, submits_meaning};
ghost use Rattle.kc_jobs_laws.specs.Taken.{AreJobsLaid, AreUnknown, AwaitsJob, IsEndOfJob, SettlesJob, StartsJob, StaysSo, SubmitsJob, TakesJobs};
ghost use Rattle.kc_lay.specs.Placed.{HoldsAtOpening, StaysLaid};
ghost use Rattle.kc_model.specs.declared.plain_store.TheConstants.{MOST_LOCATIONS};
ghost use Rattle.kc_model.specs.declared.reply.Reply.TheVariants as Reply;
ghost use Rattle.kc_queue.specs.Meaning.{queue_cells_end};
ghost use Rattle.kc_xt.specs.declared.structure.TheConstants.{MOST_BUCKETS, MOST_ITEMS};

use kc_cells::{Promise, PromiseAct, PromiseOp};
use kc_compose::{Both, Fed, Give, IntoQueue, Say, Unless, When};
use kc_hash::{Hash, HashOp};
use kc_jobs::{Begin, cancel_job, end_job, release_job, start_job, submit_job};
use kc_lay::{Layout, Locations, stays_under_additions};
use kc_queue::{Queue, QueueOp};
use kc_xt::MOST_BUCKETS;
use std::alloc::AllocError;

/// So many jobs, numbered from 0: a promise of the end of each, side by side, and behind these a table of what is known of
/// each. An end is told 0 where the job was cancelled, and else its result.
#[derive(Clone, Copy)]
pub struct Jobs {
    pub many: u32,
    pub ends: Locations,
    pub states: Hash,
}

impl Jobs {
    /// So many jobs behind all that lies there; of none is anything known.
    ///
    /// # Errors
    ///
    /// - AllocError: there is no memory for them; some of their cells may have been laid
    pub fn lay(layout: &mut Layout, many: u32) -> Result<Jobs, AllocError>
        requires some { 1 ≤ many }
        requires most { many ≤ MOST_ITEMS }
        requires room { length layout.old + 2 + MOST_BUCKETS + 5 * many ≤ MOST_LOCATIONS }
        ensures many { IfOk result (λ s. s.many ≡ many) }
        ensures cap { IfOk result (λ s. s.states.cap ≡ many) }
        ensures laid { IfOk result (λ s. AreJobsLaid s) }
        ensures stays { StaysLaid layout.old layout.new }
        ensures behind { IfOk result (λ s. length layout.old ≤ s.ends.base.0) }
        ensures within { IfOk result (λ s. hash_cells_end s.states ≤ length layout.new) }
        ensures opens { IfOk result (λ s. HoldsAtOpening (AreUnknown s) layout.new) }
    {
        stays_under_additions();
        let ends = layout.locations(2 * many, 0)?;
        let states = layout.hash(many.min(MOST_BUCKETS), many)?;
        Ok(Jobs { many, ends, states })
    }

    /// The end of a job.
    pub fn end_of(&self, job: u32) -> Promise
        requires laid { AreJobsLaid self.now }
        requires job { job < self.now.many }
        ensures { IsEndOfJob self.now job result }
    {
        Promise::layout(self.ends.at(2 * job))
    }

    /// `submit_job`: of this job nothing was known, and now it waits; or it is refused, as the reply says.
    pub fn submit(&self, line: Queue, job: u32) -> When<HashOp, Give<Unless<HashOp, QueueOp>>, Say>
        requires laid { AreJobsLaid self.now }
        requires line { queue_cells_end line ≤ self.now.ends.base.0 }
        ensures is { result ≡ submits_job self.now.states line job }
        ensures takes { TakesJobs self.now (SubmitsJob job) (submits_meaning result) }
    {
        submit_job(self.states, line, job)
    }

    /// `cancel_job`: this job waited, and now it is cancelled, and its end is told 0; or it is refused.
    pub fn cancel(&self, job: u32) -> When<HashOp, Both<HashOp, PromiseOp>, Say>
        requires laid { AreJobsLaid self.now }
        requires job { job < self.now.many }
        ensures end { IsEndOfJob self.now job result.then.second.promise }
        ensures asks { result.ask ≡ record { hash = self.now.states; act = HashAct.Find job } }
        ensures is { result.is ≡ Sort.Is WAITING }
        ensures marks { result.then.first ≡ record { hash = self.now.states; act = HashAct.Put job CANCELLED } }
        ensures tells { result.then.second.act ≡ PromiseAct.Resolve 0 }
        ensures refuses { result.otherwise ≡ record { reply = Reply.Bool false } }
        ensures takes { TakesJobs self.now (SettlesJob job WAITING CANCELLED 0) (settles_meaning result) }
    {
        cancel_job(self.states, self.end_of(job), job)
    }

    /// `release_job`: no job is known otherwise than before.
    pub fn release(&self, line: Queue, ready: Queue) -> Fed<QueueOp, IntoQueue>
        requires laid { AreJobsLaid self.now }
        requires line { queue_cells_end line ≤ self.now.ends.base.0 }
        requires ready { queue_cells_end ready ≤ self.now.ends.base.0 }
        ensures is { result ≡ moves_item line ready }
        ensures takes { TakesJobs self.now StaysSo (moves_meaning result) }
    {
        release_job(line, ready)
    }

    /// `start_job`: the job whose number is replied waited, and now it runs.
    pub fn start(&self, ready: Queue) -> Fed<QueueOp, Begin>
        requires laid { AreJobsLaid self.now }
        requires ready { queue_cells_end ready ≤ self.now.ends.base.0 }
        ensures is { result ≡ starts_next self.now ready }
        ensures takes { TakesJobs self.now StartsJob (starts_meaning result) }
    {
        start_job(ready, self.states)
    }

    /// `end_job`: this job ran, and now it is done, and its end is told this; or it is refused.
    pub fn end(&self, job: u32, value: u32) -> When<HashOp, Both<HashOp, PromiseOp>, Say>
        requires laid { AreJobsLaid self.now }
        requires job { job < self.now.many }
        ensures end { IsEndOfJob self.now job result.then.second.promise }
        ensures asks { result.ask ≡ record { hash = self.now.states; act = HashAct.Find job } }
        ensures is { result.is ≡ Sort.Is RUNNING }
        ensures marks { result.then.first ≡ record { hash = self.now.states; act = HashAct.Put job DONE } }
        ensures tells { result.then.second.act ≡ PromiseAct.Resolve value }
        ensures refuses { result.otherwise ≡ record { reply = Reply.Bool false } }
        ensures takes { TakesJobs self.now (SettlesJob job RUNNING DONE value) (settles_meaning result) }
    {
        end_job(self.states, self.end_of(job), job, value)
    }

    /// Replies what a job's end was told, and waits while it wasn't.
    pub fn await_end(&self, job: u32) -> PromiseOp
        requires laid { AreJobsLaid self.now }
        requires job { job < self.now.many }
        ensures end { IsEndOfJob self.now job result.promise }
        ensures act { result.act ≡ PromiseAct.Await }
        ensures takes { TakesJobs self.now (AwaitsJob job) (promise_meaning result) }
    {
        PromiseOp {
            promise: self.end_of(job),
            act: PromiseAct::Await,
        }
    }
}
