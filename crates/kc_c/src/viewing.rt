//! One view of C's operations.

ghost use Rattle.std.specs.Prelude.{◌≡◌, ◌≤◌, ◌==◌, false, true};
ghost use Rattle.kc_c.specs.declared.answers.TheConstants.{DONE};
ghost use Rattle.kc_c.specs.Sights.{IsViewedByCaller, glimpse_number};
ghost use Rattle.kc_c.specs.Standings.{rests};
ghost use Rattle.kc_c.specs.Tries.{MayTry};
ghost use Rattle.kc_calls.specs.Meaning.{CallsAreFit, calls_end, calls_meaning};
ghost use Rattle.kc_model.specs.Footprint.{IsBelow};
ghost use Rattle.kc_model.specs.declared.footprint.TheConstants.{MOST};
ghost use Rattle.kc_model.specs.declared.reply.Reply.{Reply};
ghost use Rattle.kc_store.specs.Answers.{GainsNothing};
ghost use Rattle.kc_store.specs.Knows.{OnlyLearns};
ghost use Rattle.kc_store.specs.Viewing.{IsGlimpsed, glimpse_as, is_settled};
ghost use Rattle.kc_xt.specs.Commit.{tried_of};
ghost use Rattle.kc_xt.specs.Meaning.{limited};

use crate::answers::{BAD_OPS, BUSY, CHANGED, DONE, LATER, NOT_NOW, PUTS, TOO_LARGE};
use crate::client::Client;
use crate::standing::Standing;
use kc_calls::{Calls, KcasOp, KcasReply, are_operations, tell};
use kc_model::Footprint;
use kc_store::{Caller, Sight, Store};
use kc_xt::{Trial, Went};

impl Client {
    /// One view of the operations as one transaction. What it read lies in the footprint; at DONE the replies are written.
    pub(crate) fn view(&mut self, ops: &[KcasOp], replies: &mut [KcasReply]) -> u32
        ensures not_now { rests self.old.standing ≡ false → (result ≡ NOT_NOW) × (self.new ≡ self.old) × (replies.new ≡ replies.old) }
        ensures bad_ops { rests self.old.standing ≡ true → ¬ MayTry self.old.locations ops.now replies.old → (result ≡ BAD_OPS) × (self.new ≡ self.old) × (replies.new ≡ replies.old) }
        ensures viewed { rests self.old.standing ≡ true → MayTry self.old.locations ops.now replies.old → IsViewedByCaller ops.now self.old result self.new replies.old replies.new }
    {
        let Client {
            store,
            standing,
            footprint,
            trial,
            locations,
            ..
        } = self;
        let Standing::Rests(caller) = standing else {
            return NOT_NOW;
        };
        if ops.len() > replies.len() {
            return BAD_OPS;
        }
        if !are_operations(ops, *locations) {
            return BAD_OPS;
        }
        let sight = view_calls(store, caller, ops, trial, footprint);
        if is_seen(sight, trial) {
            tell(&trial.reply, &mut replies[..ops.len()]);
            return DONE;
        }
        number_of_sight(sight, trial.went)
    }
}

#[inline(never)]
fn view_calls(
    store: &Store,
    caller: &mut Caller,
    ops: &[KcasOp],
    trial: &mut Trial,
    footprint: &mut Footprint,
) -> Sight
    requires caller { caller.old.of ≡ store.now }
    requires fit { CallsAreFit ops.now }
    requires within { calls_end ops.now ≤ store.now.locations }
    ensures glimpsed { IsGlimpsed (limited MOST (calls_meaning ops.now)) (glimpse_as result (tried_of trial.new.went trial.new.reply)) caller.old footprint.new caller.new }
    ensures within { is_settled (glimpse_as result (tried_of trial.new.went trial.new.reply)) ≡ true → IsBelow (calls_end ops.now) footprint.new }
    ensures learns { OnlyLearns caller.old caller.new }
    ensures gains { GainsNothing caller.old.seat caller.new.seat }
{
    store.view_in_place(caller, &Calls { ops }, trial, footprint)
}

fn is_seen(sight: Sight, trial: &Trial) -> bool
    ensures { result ≡ (glimpse_number (glimpse_as sight (tried_of trial.now.went trial.now.reply)) == DONE) }
{
    matches!(sight, Sight::Stands) && matches!(trial.went, Went::Done)
}

fn number_of_sight(sight: Sight, went: Went) -> u32
    ensures { (reply : Reply) → result ≡ glimpse_number (glimpse_as sight (tried_of went reply)) }
{
    match sight {
        Sight::Stands => match went {
            Went::Done => DONE,
            Went::Later => LATER,
            Went::TooLarge => TOO_LARGE,
            Went::Worn(_) => PUTS,
            Went::Busy => CHANGED,
        },
        Sight::Changed => CHANGED,
        Sight::Puts => PUTS,
        Sight::Busy { .. } => BUSY,
    }
}
