//! A caller of one era, and since when it knows that the era goes on.

ghost use Rattle.std.specs.Prelude.{◌≡◌, ◌<◌, ◌≤◌, ◌+◌, [], true, false};
ghost use Rattle.std.specs.Arc.{arc_value};
ghost use Rattle.kc_lasting.specs.Cuts.{LooksOnceAt};
ghost use Rattle.kc_lasting.specs.Ends.{HasSeen, IsNewCaller};
ghost use Rattle.kc_model.specs.declared.plain_store.TheConstants.{MOST_LOCATIONS};
ghost use Rattle.kc_store.specs.Answers.{Settles};
ghost use Rattle.kc_store.specs.Knows.{IsTold, OnlyLearns, Remembers};
ghost use Rattle.kc_store.specs.Tries.{Tries};
ghost use Rattle.kc_store.specs.Verdicts.{verdict_as};
ghost use Rattle.kc_store.specs.Viewing.{InVain, IsGlimpsed, is_settled};
ghost use Rattle.kc_store.specs.declared.viewing.TheConstants.{MOST_VIEWS};
ghost use Rattle.kc_xt.specs.Commit.{tried_of};
ghost use Rattle.kc_xt.specs.Meaning.{limited};

use crate::cutting::look;
use crate::era::Era;
use kc_model::{Footprint, Loc, Seen};
use kc_store::{Caller, Fate, Glimpse, Wakes};
use kc_xt::{Transact, Trial};
use std::alloc::Global;
use std::snapshot::Snapshot;
use std::sync::{Arc, Wait};
use std::thread;
use std::time::Duration;

// How long it hangs where nobody would wake it, in milliseconds.
const MOMENT: u64 = 1;

/// A caller, and its share of the era that it is of. Behind the locations that transactions touch the store has one more, the flag:
/// who cuts the era off puts it first. So who finds it as it was knows less than is known at the cut.
#[derive(Drop)]
pub struct Client {
    pub(crate) era: Arc<Era, Global>,
    pub(crate) caller: Caller,
    pub(crate) locations: u32,
    // The flag's version, as long as nobody cuts.
    pub(crate) flag: u32,
    // The caller as it stood before it last found the flag so.
    pub(crate) seen: Snapshot<Caller>,
    ghost of: { caller.of ≡ (arc_value era).store },
    ghost size: { caller.of.locations ≡ locations + 1 },
    ghost few: { locations < MOST_LOCATIONS },
    ghost early: { ∥ HasSeen locations flag seen.value caller ∥₁ },
}

/// One that has committed nothing yet.
#[derive(Drop)]
pub struct Fresh {
    pub(crate) client: Client,
    ghost none: { client.caller.own ≡ [] },
    ghost seen: { client.seen.value ≡ client.caller },
}

impl Fresh {
    pub(crate) fn of(era: Arc<Era, Global>, caller: Caller, locations: u32) -> Fresh
        requires of { caller.of ≡ (arc_value era).store }
        requires size { caller.of.locations ≡ locations + 1 }
        requires few { locations < MOST_LOCATIONS }
        requires new { IsNewCaller caller }
        ensures caller { result.client.caller ≡ caller }
        ensures size { result.client.locations ≡ locations }
    {
        Fresh {
            client: Client::of(era, caller, locations),
        }
    }
}

impl Client {
    fn of(era: Arc<Era, Global>, caller: Caller, locations: u32) -> Client
        requires of { caller.of ≡ (arc_value era).store }
        requires size { caller.of.locations ≡ locations + 1 }
        requires few { locations < MOST_LOCATIONS }
        requires new { IsNewCaller caller }
        ensures caller { result.caller ≡ caller }
        ensures size { result.locations ≡ locations }
        ensures seen { result.seen.value ≡ caller }
    {
        caller.shows();
        let seen = Snapshot::of(&caller);
        Client {
            era,
            caller,
            locations,
            flag: 0,
            seen,
        }
    }

    /// Whether nobody has begun to cut the era off. Then all that it knew stands before the cut that comes.
    #[inline(always)]
    pub(crate) fn is_open<R: Wait>(&mut self, rt: &R) -> bool
        ensures learns { OnlyLearns self.old.caller self.new.caller }
        ensures seen { result ≡ true → self.new.seen.value ≡ self.old.caller }
        ensures stays { result ≡ false → self.new.seen.value ≡ self.old.seen.value }
        ensures size { self.new.locations ≡ self.old.locations }
    {
        let Client {
            era,
            caller,
            locations,
            flag,
            seen,
        } = self;
        caller.shows();
        let before = Snapshot::of(caller);
        let found = look(rt, &era.store, caller, Loc(*locations));
        let is_open = found.version == *flag;
        if is_open {
            *seen = before;
        }
        is_open
    }

    /// Nobody has cut the era off, so that it goes on at the flag as it stands.
    pub(crate) fn look_again<R: Wait>(&mut self, rt: &R)
        ensures learns { OnlyLearns self.old.caller self.new.caller }
        ensures seen { self.new.seen.value ≡ self.old.caller }
        ensures size { self.new.locations ≡ self.old.locations }
    {
        let Client {
            era,
            caller,
            locations,
            flag,
            seen,
        } = self;
        caller.shows();
        let before = Snapshot::of(caller);
        let found = look(rt, &era.store, caller, Loc(*locations));
        *flag = found.version;
        *seen = before;
    }

    /// One try in its era, which wakes whom its steps signal.
    #[inline(always)]
    pub(crate) fn try_in_place<T: Transact>(
        &mut self,
        transaction: &T,
        trial: &mut Trial,
        footprint: &mut Footprint,
    ) -> Fate
        requires fit { T.is_fit transaction.now }
        requires within { T.end transaction.now ≤ self.old.locations }
        ensures told { IsTold (limited (T.most transaction.now) (T.meaning transaction.now)) (verdict_as result (tried_of trial.new.went trial.new.reply)) self.old.caller footprint.new self.new.caller }
        ensures tries { Tries (limited (T.most transaction.now) (T.meaning transaction.now)) footprint.new self.old.caller.seat self.new.caller.seat }
        ensures settles { Settles (limited (T.most transaction.now) (T.meaning transaction.now)) (verdict_as result (tried_of trial.new.went trial.new.reply)) self.old.caller.seat footprint.new self.new.caller.seat }
        ensures remembers { Remembers self.old.caller self.new.caller }
        ensures seen { self.new.seen.value ≡ self.old.seen.value }
        ensures size { self.new.locations ≡ self.old.locations }
    {
        let Client { era, caller, .. } = self;
        let mut wakes = Wakes::none();
        let fate = era
            .store
            .try_in_place(caller, transaction, trial, footprint, &mut wakes);
        era.store.wake(wakes);
        fate
    }

    /// Some tries to view a transaction in its era.
    #[inline(always)]
    pub(crate) fn glimpse<T: Transact>(
        &mut self,
        transaction: &T,
        footprint: &mut Footprint,
    ) -> Glimpse
        requires fit { T.is_fit transaction.now }
        requires within { T.end transaction.now ≤ self.old.locations }
        ensures glimpsed { is_settled result ≡ true → IsGlimpsed (limited (T.most transaction.now) (T.meaning transaction.now)) result self.old.caller footprint.new self.new.caller }
        ensures vain { is_settled result ≡ false → InVain (limited (T.most transaction.now) (T.meaning transaction.now)) self.old.caller MOST_VIEWS self.new.caller }
        ensures learns { OnlyLearns self.old.caller self.new.caller }
        ensures seen { self.new.seen.value ≡ self.old.seen.value }
        ensures size { self.new.locations ≡ self.old.locations }
    {
        let Client { era, caller, .. } = self;
        era.store.try_views_into(caller, transaction, footprint)
    }

    /// What stands at a location in its era.
    pub(crate) fn read<R: Wait>(&mut self, rt: &R, at: Loc) -> Seen
        requires within { at.0 < self.old.locations }
        ensures looks { LooksOnceAt at.0 self.old.caller.seat result self.new.caller.seat }
        ensures learns { OnlyLearns self.old.caller self.new.caller }
        ensures seen { self.new.seen.value ≡ self.old.seen.value }
        ensures size { self.new.locations ≡ self.old.locations }
    {
        let Client { era, caller, .. } = self;
        look(rt, &era.store, caller, at)
    }

    /// Hangs on what was read, and on the flag, until something of it may have changed, for so long at most. Beside as many reads as
    /// a transaction may have there is no room for the flag: then it hangs for a moment at a time.
    pub(crate) fn wait<R: Wait>(&mut self, rt: &R, footprint: &Footprint, limit: Option<Duration>)
        ensures learns { OnlyLearns self.old.caller self.new.caller }
        ensures seen { self.new.seen.value ≡ self.old.seen.value }
        ensures size { self.new.locations ≡ self.old.locations }
    {
        let Client {
            era,
            caller,
            locations,
            flag,
            ..
        } = self;
        let end = *locations;
        let (hang, limit) = with_flag(footprint, Loc(end), *flag, limit);
        let reads = hang.reads.as_slice();
        if reads.is_empty() {
            return thread::yield_now();
        }
        if reads.iter().all(|read| read.loc.0 <= end) {
            match limit {
                Some(left) => era.store.wait_a_while(rt, caller, &hang, left),
                None => era.store.wait_for_a_change(rt, caller, &hang),
            }
        }
    }
}

// The reads, and behind them the flag, for so long at most. Where there is no room for the flag, for a moment at most: nobody wakes who
// hangs on the reads alone where the era ends.
fn with_flag(
    footprint: &Footprint,
    at: Loc,
    version: u32,
    limit: Option<Duration>,
) -> (Footprint, Option<Duration>) {
    let mut all = Footprint::new();
    for read in footprint.reads.as_slice() {
        let _ = all.reads.try_push(*read);
    }
    let flag = Seen {
        loc: at,
        version,
        value: 0,
    };
    if all.reads.try_push(flag).is_ok() {
        return (all, limit);
    }
    let moment = Duration::from_millis(MOMENT);
    let left = match limit {
        Some(left) => left.min(moment),
        None => moment,
    };
    (all, Some(left))
}
