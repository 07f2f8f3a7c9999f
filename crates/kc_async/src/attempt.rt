//! One try of a transaction by a task.

ghost use Rattle.std.specs.Prelude.{◌≡◌, ◌≤◌};
ghost use Rattle.kc_async.specs.Attempts.{CameTo};
ghost use Rattle.kc_xt.specs.Meaning.{limited};

use crate::bells::Bells;
use kc_callers::Borrowed;
use kc_model::Footprint;
use kc_store::{Answered, Verdict};
use kc_xt::Transact;

/// What a try came to.
#[derive(Drop)]
pub enum Came {
    /// The commit is answered so, and not Later.
    Ends(Answered),
    /// It is to be tried again.
    Again,
    /// It has to wait for a change of what it read.
    Waits,
}

// Tries it, and rings for what it put.
pub(crate) fn attempt<T: Transact>(
    bells: &Bells,
    one: &mut Borrowed<'_>,
    transaction: &T,
    footprint: &mut Footprint,
) -> Came
    requires fit { T.is_fit transaction.now }
    requires within { T.end transaction.now ≤ one.old.caller.of.locations }
    ensures came { CameTo (limited (T.most transaction.now) (T.meaning transaction.now)) (T.end transaction.now) result one.old.caller footprint.new one.new.caller }
    ensures callers { one.new.callers.now ≡ one.old.callers.now }
{
    match one.try_commit_into(transaction, footprint) {
        Verdict::Done(reply) => {
            bells.ring(footprint);
            Came::Ends(Answered::Done(reply))
        }
        Verdict::Later => Came::Waits,
        Verdict::TooLarge => Came::Ends(Answered::TooLarge),
        Verdict::WornLocation(loc) => Came::Ends(Answered::WornLocation(loc)),
        Verdict::WornPool => Came::Ends(Answered::WornPool),
        Verdict::Lost { .. } | Verdict::Busy { .. } => Came::Again,
    }
}
