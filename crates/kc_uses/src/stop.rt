//! A wait that another thread can end.

ghost use Rattle.std.specs.Prelude.{◌≡◌};
ghost use Rattle.kc_compose.specs.declared.sort.Sort.TheVariants as Sort;
ghost use Rattle.kc_loc.specs.declared.operation.LocOp.TheVariants as LocOp;
ghost use Rattle.kc_model.specs.declared.reply.Reply.TheVariants as Reply;
ghost use Rattle.kc_queue.specs.declared.operation.QueueAct.TheVariants as QueueAct;

use crate::finish::{KeepResult, finish_job};
use crate::server::Server;
use kc_compose::{Fed, Say, Sort, When};
use kc_loc::LocOp;
use kc_model::Reply;
use kc_queue::QueueOp;

/// Finishes the next job, or replies `Empty` once the server is closed. It waits while there is no job and the server is
/// open: it has read whether it is, so who closes the server ends the wait.
pub fn finish_or_stop(server: &Server) -> When<LocOp, Fed<QueueOp, KeepResult>, Say>
    ensures asks { result.ask ≡ LocOp.Get server.now.closed }
    ensures open { result.is ≡ Sort.Is 0 }
    ensures finishes { result.then ≡ record { first = record { queue = server.now.jobs; act = QueueAct.DeqWait }; behind = record { results = server.now.results } } }
    ensures stops { result.otherwise ≡ record { reply = Reply.Empty } }
{
    When {
        ask: LocOp::Get(server.closed),
        is: Sort::Is(0),
        then: finish_job(server),
        otherwise: Say {
            reply: Reply::Empty,
        },
    }
}
