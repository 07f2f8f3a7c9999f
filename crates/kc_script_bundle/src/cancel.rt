//! Cancelling a thread's waiting.

ghost use Rattle.std.specs.Prelude.{◌≡◌};
ghost use Rattle.kc_script_bundle.specs.Live.{IsThreadNumber};
ghost use Rattle.kc_script_bundle.specs.Meaning.{cancel_op, cancel_meaning, cancel_end, CancelIsFit};

use crate::live::flag_of;
use kc_loc::{Fun, LocOp};
use kc_model::{Loc, MOST, Reply};
use kc_xt::{Peek, Stop, Transact, Xt};

/// Sets the flag of a thread at the location of live threads, and replies `ok`: the next command of that thread which
/// would wait is answered `Cancelled` in place of it. The flag of a thread that has ended, or isn't there, is read by
/// nobody. It is fit where the location is below 65,536, and the thread's number is 1 to `MOST_THREADS`.
#[derive(Clone, Copy, Debug, PartialEq, Eq)]
pub struct Cancel {
    /// The location of live threads.
    pub live: Loc,
    /// The number of the thread.
    pub thread: u32,
}

impl Cancel {
    // The operation on the location that it is.
    fn as_op(&self) -> LocOp
        requires { IsThreadNumber self.now.thread }
        ensures { result ≡ cancel_op self.now }
    {
        LocOp::Modify(self.live, Fun::Or(flag_of(self.thread)))
    }
}

impl Transact for Cancel {
    ghost meaning = { cancel_meaning };

    ghost is_fit = { CancelIsFit };

    ghost end = { cancel_end };

    fn bound(&self) -> u32 {
        self.live.0.saturating_add(1)
    }

    fn limit(&self) -> u32 {
        MOST as u32
    }

    fn run<P: Peek>(&self, xt: &mut Xt<P>) -> Result<Reply, Stop> {
        self.as_op().run(xt)
    }
}
