//! A transaction of one's own.

ghost use Rattle.std.specs.Prelude.{◌≡◌, ◌*◌, ◌%◌, ◌^◌};
ghost use Rattle.kc_cache.specs.declared.operation.CacheAct.TheVariants as CacheAct;
ghost use Rattle.kc_queue.specs.declared.operation.QueueAct.TheVariants as QueueAct;

use crate::server::Server;
use kc_cache::{Cache, CacheAct, CacheOp};
use kc_compose::{Fed, Feed};
use kc_queue::{QueueAct, QueueOp};

/// Keeps the result of a job, its square.
#[derive(Clone, Copy)]
pub struct KeepResult {
    pub results: Cache,
}

impl Feed for KeepResult {
    type Next = CacheOp;

    ghost fed = { λ k job. record { cache = k.results; act = CacheAct.CPut job ((job * job) % 2 ^ 32) } };

    fn feed(&self, job: u32) -> CacheOp {
        CacheOp {
            cache: self.results,
            act: CacheAct::CPut(job, job.wrapping_mul(job)),
        }
    }
}

/// Takes the next job and keeps its result, in one step: nobody sees the job neither waiting nor done. It waits while
/// there is no job.
pub fn finish_job(server: &Server) -> Fed<QueueOp, KeepResult>
    ensures { result ≡ record { first = record { queue = server.now.jobs; act = QueueAct.DeqWait }; behind = record { results = server.now.results } } }
{
    Fed {
        first: QueueOp {
            queue: server.jobs,
            act: QueueAct::DeqWait,
        },
        behind: KeepResult {
            results: server.results,
        },
    }
}
