//! What one operation does.

ghost use Rattle.std.specs.Prelude.{◌≡◌, ◌≤◌};
ghost use Rattle.kc_calls.specs.Meaning.{call_meaning, call_end, CallIsFit};
ghost use Rattle.kc_compose.specs.Meaning.{wait_meaning};
ghost use Rattle.kc_compose.specs.declared.sort.Sort.TheVariants.{Full};
ghost use Rattle.kc_script_bundle.specs.Meaning.{op_end, op_meaning, OpIsFit};
ghost use Rattle.kc_xt.specs.Law.{Obeys};

use kc_compose::Sort;
use kc_model::{MOST, Reply};
use kc_script_bundle::Op;
use kc_xt::{Peek, Stop, Transact, Xt};

/// An operation.
#[derive(Clone, Copy, Debug, PartialEq, Eq)]
pub enum Call {
    /// Replies a number, and touches nothing.
    Say(u32),
    Act(Op),
    /// The operation; where it would reply that there is no room, it waits.
    WaitForRoom(Op),
}

impl Transact for Call {
    ghost meaning = { call_meaning };

    ghost is_fit = { CallIsFit };

    ghost end = { call_end };

    fn bound(&self) -> u32 {
        match self {
            Call::Say(_) => 0,
            Call::Act(operation) | Call::WaitForRoom(operation) => operation.bound(),
        }
    }

    fn limit(&self) -> u32 {
        MOST as u32
    }

    fn run<P: Peek>(&self, xt: &mut Xt<P>) -> Result<Reply, Stop> {
        match self {
            Call::Say(number) => Ok(Reply::Value(*number)),
            Call::Act(operation) => operation.run(xt),
            Call::WaitForRoom(operation) => run_with_room(operation, xt),
        }
    }
}

// Each operation that replies Full has read that there is no room, so a wait for room has what it waits for.
fn run_with_room<P: Peek>(operation: &Op, xt: &mut Xt<P>) -> Result<Reply, Stop>
    requires fit { OpIsFit operation.now }
    requires within { op_end operation.now ≤ P.locations xt.old.peek }
    ensures law { Obeys P.peek_gives (wait_meaning Full (op_meaning operation.now)) (op_end operation.now) xt.old result xt.new }
    ensures size { P.locations xt.new.peek ≡ P.locations xt.old.peek }
{
    let reply = operation.run(xt)?;
    if Sort::Full.has(&reply) {
        Err(Stop::Retry)
    } else {
        Ok(reply)
    }
}
