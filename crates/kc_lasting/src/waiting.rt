//! Commits that wait.

ghost use Rattle.std.specs.Prelude.{◌≡◌, ◌≤◌, false, true};
ghost use Rattle.kc_await.specs.Waiting.{is_later};
ghost use Rattle.kc_lasting.specs.Told.{Moves, DoesNothing, WaitsTill, standing_of};
ghost use Rattle.kc_xt.specs.Meaning.{limited};

use crate::handle::LastingCaller;
use kc_await::Limit;
use kc_model::Footprint;
use kc_store::Answered;
use kc_xt::Transact;
use std::sync::Wait;
use std::time::Duration;

impl LastingCaller {
    /// Commits a transaction, and waits where it would be answered Later; so it never answers Later.
    pub fn commit_waiting_into<R: Wait, T: Transact>(
        &mut self,
        rt: &R,
        transaction: &T,
        footprint: &mut Footprint,
    ) -> Answered
        requires fit { T.is_fit transaction.now }
        requires within { T.end transaction.now ≤ self.old.client.locations }
        ensures told { WaitsTill (limited (T.most transaction.now) (T.meaning transaction.now)) result (standing_of self.old) footprint.new (standing_of self.new) }
        ensures never { is_later result ≡ false }
        ensures moves { Moves (standing_of self.old) (standing_of self.new) }
        ensures size { self.new.client.locations ≡ self.old.client.locations }
    {
        'tries: for _ in rt.forever() {
            let era = self.place.era;
            let answered = self.commit_into(rt, transaction, footprint);
            if !is_later(&answered) {
                return answered;
            }
            self.wait(rt, footprint, era, None);
        }
        unreachable!()
    }

    /// The same, no longer than the limit allows. It answers Later only once the limit is over; behind that it looked once more.
    pub fn commit_waiting_until<R: Wait, L: Limit, T: Transact>(
        &mut self,
        rt: &R,
        transaction: &T,
        limit: &L,
        footprint: &mut Footprint,
    ) -> Answered
        requires fit { T.is_fit transaction.now }
        requires within { T.end transaction.now ≤ self.old.client.locations }
        ensures told { WaitsTill (limited (T.most transaction.now) (T.meaning transaction.now)) result (standing_of self.old) footprint.new (standing_of self.new) }
        ensures over { is_later result ≡ true → L.is_over limit.now }
        ensures moves { Moves (standing_of self.old) (standing_of self.new) }
        ensures size { self.new.client.locations ≡ self.old.client.locations }
    {
        'tries: for _ in rt.forever() {
            let era = self.place.era;
            let left = limit.left();
            let answered = self.commit_into(rt, transaction, footprint);
            if !is_later(&answered) {
                return answered;
            }
            let Some(left) = left else {
                return answered;
            };
            self.wait(rt, footprint, era, Some(left));
        }
        unreachable!()
    }

    // Hangs on what was read until something of it may have changed, or the era ends, for so long at most. Where the handle went over
    // since that era, it doesn't: what was read has other versions now.
    fn wait<R: Wait>(&mut self, rt: &R, footprint: &Footprint, era: u64, limit: Option<Duration>)
        ensures passes { DoesNothing (standing_of self.old) (standing_of self.new) }
        ensures moves { Moves (standing_of self.old) (standing_of self.new) }
        ensures size { self.new.client.locations ≡ self.old.client.locations }
    {
        if self.place.era == era {
            self.client.wait(rt, footprint, limit);
        }
    }
}

fn is_later(answered: &Answered) -> bool
    ensures { result ≡ is_later answered.now }
{
    matches!(answered, Answered::Later)
}
