//! The acts, each by what the table of states has of the job.

ghost use Rattle.std.specs.Prelude.{◌≡◌, false};
ghost use Rattle.kc_cells.specs.declared.promise.PromiseAct.TheVariants as PromiseAct;
ghost use Rattle.kc_compose.specs.Found.{found_then, moves_item};
ghost use Rattle.kc_compose.specs.declared.sort.Sort.TheVariants as Sort;
ghost use Rattle.kc_hash.specs.declared.operation.HashAct.TheVariants as HashAct;
ghost use Rattle.kc_jobs.specs.Begins.{begins_job};
ghost use Rattle.kc_jobs.specs.declared.jobs.TheConstants.{CANCELLED, DONE, RUNNING, WAITING};
ghost use Rattle.kc_model.specs.declared.reply.Reply.TheVariants as Reply;
ghost use Rattle.kc_queue.specs.declared.operation.QueueAct.TheVariants as QueueAct;

use kc_cells::{Promise, PromiseAct, PromiseOp};
use kc_compose::{
    Both, Fed, Feed, Give, IntoQueue, Say, Sort, Unless, When, move_item, when_found,
};
use kc_hash::{Hash, HashAct, HashOp};
use kc_model::Reply;
use kc_queue::{Queue, QueueAct, QueueOp};

/// It waits, in a line or among those that may run. This and the next three are the numbers in the table of states.
pub const WAITING: u32 = 1;

/// A worker has it.
pub const RUNNING: u32 = 2;

/// It ended.
pub const DONE: u32 = 3;

/// It was cancelled while it waited.
pub const CANCELLED: u32 = 4;

fn mark(states: Hash, job: u32, state: u32) -> HashOp
    ensures { result ≡ record { hash = states; act = HashAct.Put job state } }
{
    HashOp {
        hash: states,
        act: HashAct::Put(job, state),
    }
}

// Marks a job, and resolves its end.
fn settle(states: Hash, end: Promise, job: u32, state: u32, value: u32) -> Both<HashOp, PromiseOp>
    ensures { result ≡ record { first = record { hash = states; act = HashAct.Put job state }; second = record { promise = end; act = PromiseAct.Resolve value } } }
{
    Both {
        first: mark(states, job, state),
        second: PromiseOp {
            promise: end,
            act: PromiseAct::Resolve(value),
        },
    }
}

/// Notes that a new job waits, and puts it into a line. Where the table or the line is full it does neither, and replies Full;
/// of a job that is known it replies `false`, and does nothing.
pub fn submit_job(
    states: Hash,
    line: Queue,
    job: u32,
) -> When<HashOp, Give<Unless<HashOp, QueueOp>>, Say>
    ensures { result ≡ found_then states job Sort.Empty (record { of = record { first = record { hash = states; act = HashAct.Put job WAITING }; replies = Sort.Full; second = record { queue = line; act = QueueAct.Enq job } }; back = Sort.Full }) (Reply.Bool false) }
{
    let noted = Unless {
        first: mark(states, job, WAITING),
        replies: Sort::Full,
        second: QueueOp {
            queue: line,
            act: QueueAct::Enq(job),
        },
    };
    let or_neither = Give {
        of: noted,
        back: Sort::Full,
    };
    when_found(states, job, Sort::Empty, or_neither, Reply::Bool(false))
}

/// Cancels a job that waits, and resolves its end with 0. It replies `false`, and does nothing, where the job runs, has
/// ended, or never came.
pub fn cancel_job(
    states: Hash,
    end: Promise,
    job: u32,
) -> When<HashOp, Both<HashOp, PromiseOp>, Say>
    ensures { result ≡ found_then states job (Sort.Is WAITING) (record { first = record { hash = states; act = HashAct.Put job CANCELLED }; second = record { promise = end; act = PromiseAct.Resolve 0 } }) (Reply.Bool false) }
{
    let cancelled = settle(states, end, job, CANCELLED, 0);
    when_found(
        states,
        job,
        Sort::Is(WAITING),
        cancelled,
        Reply::Bool(false),
    )
}

/// Moves the next job of a line to those that may run. It waits while there is none, and while those are as many as may be.
pub fn release_job(line: Queue, ready: Queue) -> Fed<QueueOp, IntoQueue>
    ensures { result ≡ moves_item line ready }
{
    move_item(line, ready)
}

/// Marks the job as running and replies its number, or replies Empty where it doesn't wait any more.
#[derive(Clone, Copy)]
pub struct Begin {
    pub states: Hash,
}

impl Feed for Begin {
    type Next = When<HashOp, Both<HashOp, Say>, Say>;

    ghost fed = { begins_job };

    fn feed(&self, job: u32) -> When<HashOp, Both<HashOp, Say>, Say> {
        let begun = Both {
            first: mark(self.states, job, RUNNING),
            second: Say {
                reply: Reply::Value(job),
            },
        };
        when_found(self.states, job, Sort::Is(WAITING), begun, Reply::Empty)
    }
}

/// Takes the next job that may run, marks it as running and replies its number; or replies Empty, where that job was
/// cancelled meanwhile. It waits while there is none.
pub fn start_job(ready: Queue, states: Hash) -> Fed<QueueOp, Begin>
    ensures { result ≡ record { first = record { queue = ready; act = QueueAct.DeqWait }; behind = record { states = states } } }
{
    Fed {
        first: QueueOp {
            queue: ready,
            act: QueueAct::DeqWait,
        },
        behind: Begin { states },
    }
}

/// Marks a job that runs as done, and resolves its end with its result: who awaits that has it. Of another job it replies
/// `false`, and does nothing.
pub fn end_job(
    states: Hash,
    end: Promise,
    job: u32,
    value: u32,
) -> When<HashOp, Both<HashOp, PromiseOp>, Say>
    ensures { result ≡ found_then states job (Sort.Is RUNNING) (record { first = record { hash = states; act = HashAct.Put job DONE }; second = record { promise = end; act = PromiseAct.Resolve value } }) (Reply.Bool false) }
{
    let done = settle(states, end, job, DONE, value);
    when_found(states, job, Sort::Is(RUNNING), done, Reply::Bool(false))
}
