//! What a handle does.

ghost use Rattle.std.specs.Prelude.{◌≡◌, ◌≤◌, ◌<◌, Some, true};
ghost use Rattle.std.specs.Arc.{arc_value};
ghost use Rattle.kc_lasting.specs.Eras.{AreEras, store_at};
ghost use Rattle.kc_lasting.specs.Told.{AttemptsSo, CommitsInSomeEra, EndsIn, GlimpsesOnce, LooksOrPasses, Moves, DoesNothing, ReadsSo, Renews, ViewsSo, is_worn_verdict, standing_of};
ghost use Rattle.kc_roll.specs.Fronts.{StandsAtFront};
ghost use Rattle.kc_store.specs.Verdicts.{verdict_as, verdict_of};
ghost use Rattle.kc_xt.specs.Commit.{tried_of};
ghost use Rattle.kc_xt.specs.Meaning.{limited};

use crate::crossing::{Crossing, cross, goes_on, stands};
use crate::handle::LastingCaller;
use crate::line::Line;
use kc_model::{Footprint, Loc, Seen};
use kc_roll::Page;
use kc_store::{Answered, Fate, Glimpse, Viewed, answer_on, is_final, viewed_on};
use kc_xt::{Transact, Trial, Went, rest};
use std::sync::Wait;

// As a store's: how often the processor pauses before it tries again.
const FIRST_PAUSES: u32 = 64;

const MOST_PAUSES: u32 = 1024;

/// What one try answers.
#[derive(Clone, Copy, Debug, PartialEq, Eq)]
pub enum Attempt {
    /// As a try on a store.
    Came(Fate),
    /// The store was renewed meanwhile, and nothing was done.
    Renewed,
}

impl LastingCaller {
    /// What contracts see of a handle: it has seen a chain of eras, and its caller is of the store of its own.
    pub fn shows(&self)
        ensures chain { ∥ AreEras (standing_of self.now).lines ∥₁ }
        ensures at { store_at (standing_of self.now).lines (standing_of self.now).era ≡ Some (standing_of self.now).caller.of }
        ensures seen { self.now.client.seen.value.own ≡ self.now.client.caller.own }
    {
        let _place = &self.place;
    }

    /// How many eras have ended before its own.
    pub fn era(&self) -> u64
        ensures { result ≡ (standing_of self.now).era }
    {
        self.place.era
    }

    /// How many locations its store has.
    pub fn locations(&self) -> u32
        ensures { result ≡ self.now.client.locations }
    {
        self.client.locations
    }

    /// One try, whose reply stays where it lies, in the trial. Whom its steps signal it wakes.
    #[inline(always)]
    pub fn try_in_place<R: Wait, T: Transact>(
        &mut self,
        rt: &R,
        transaction: &T,
        trial: &mut Trial,
        footprint: &mut Footprint,
    ) -> Attempt
        requires fit { T.is_fit transaction.now }
        requires within { T.end transaction.now ≤ self.old.client.locations }
        ensures told { AttemptsSo (limited (T.most transaction.now) (T.meaning transaction.now)) result (tried_of trial.new.went trial.new.reply) (standing_of self.old) footprint.new (standing_of self.new) }
        ensures moves { Moves (standing_of self.old) (standing_of self.new) }
        ensures size { self.new.client.locations ≡ self.old.client.locations }
    {
        let LastingCaller {
            shared,
            client,
            place,
        } = self;
        let fate = client.try_in_place(transaction, trial, footprint);
        let worn = is_worn(fate, trial);
        if stands(rt, shared, client, place, footprint, worn) {
            Attempt::Came(fate)
        } else {
            Attempt::Renewed
        }
    }

    /// Commits a transaction: tries it until a try stands in the history and was neither lost nor given up.
    pub fn commit_into<R: Wait, T: Transact>(
        &mut self,
        rt: &R,
        transaction: &T,
        footprint: &mut Footprint,
    ) -> Answered
        requires fit { T.is_fit transaction.now }
        requires within { T.end transaction.now ≤ self.old.client.locations }
        ensures told { CommitsInSomeEra (limited (T.most transaction.now) (T.meaning transaction.now)) result (standing_of self.old) footprint.new (standing_of self.new) }
        ensures moves { Moves (standing_of self.old) (standing_of self.new) }
        ensures size { self.new.client.locations ≡ self.old.client.locations }
    {
        let mut trial = Trial::new();
        let mut pauses = FIRST_PAUSES;
        'tries: for _ in rt.forever() {
            if let Attempt::Came(fate) = self.try_in_place(rt, transaction, &mut trial, footprint) {
                if is_final(fate, &trial) {
                    return answer_on(fate, &trial);
                }
                rest(pauses);
                pauses = pauses.saturating_mul(2).min(MOST_PAUSES);
            }
        }
        unreachable!()
    }

    /// Begins a new era, where the last one is the handle's, and goes over to the last one. Others' commits wait meanwhile, so a quiet
    /// moment is best. False: there was no memory.
    pub fn renew<R: Wait>(&mut self, rt: &R) -> bool
        ensures renews { Renews result (standing_of self.old) (standing_of self.new) }
        ensures moves { Moves (standing_of self.old) (standing_of self.new) }
        ensures size { self.new.client.locations ≡ self.old.client.locations }
    {
        let LastingCaller {
            shared,
            client,
            place,
        } = self;
        match cross(rt, shared, client, place, &Footprint::new(), true) {
            Crossing::Stays => false,
            Crossing::Before => true,
            Crossing::Behind => true,
        }
    }

    /// The era of another handle ends: all that it had committed there stands in the history with which it ended, of which this handle
    /// knows now. False: there was no memory.
    pub fn take_in<R: Wait>(&mut self, rt: &R, other: &mut LastingCaller) -> bool
        requires of { (standing_of other.old).roll ≡ (standing_of self.old).roll }
        ensures ends { result ≡ true → EndsIn (standing_of self.new).lines (standing_of other.old) }
        ensures passes { DoesNothing (standing_of other.old) (standing_of other.new) }
        ensures moves { Moves (standing_of self.old) (standing_of self.new) }
        ensures other_moves { Moves (standing_of other.old) (standing_of other.new) }
        ensures kept { (self.new.shared ≡ self.old.shared) × (self.new.client ≡ self.old.client) }
    {
        if !other.renew(rt) {
            return false;
        }
        let page = other.shared.roll.again(&mut other.place.page);
        self.see(page);
        true
    }

    // It has seen now what either had seen.
    fn see(&mut self, page: Page<Line>)
        requires of { page.of ≡ (arc_value self.old.shared).roll }
        requires chain { ∥ AreEras page.seen ∥₁ }
        ensures sees { StandsAtFront page.seen (standing_of self.new).lines }
        ensures moves { Moves (standing_of self.old) (standing_of self.new) }
        ensures kept { (self.new.shared ≡ self.old.shared) × (self.new.client ≡ self.old.client) }
    {
        self.shared.roll.join(&mut self.place.page, page);
    }

    /// Views a transaction: see `view_into` of a store. It is no commit of the handle's share, unless it was committed.
    pub fn view_into<R: Wait, T: Transact>(
        &mut self,
        rt: &R,
        transaction: &T,
        footprint: &mut Footprint,
    ) -> Viewed
        requires fit { T.is_fit transaction.now }
        requires within { T.end transaction.now ≤ self.old.client.locations }
        ensures viewed { ViewsSo (limited (T.most transaction.now) (T.meaning transaction.now)) result (standing_of self.old) footprint.new (standing_of self.new) }
        ensures moves { Moves (standing_of self.old) (standing_of self.new) }
        ensures size { self.new.client.locations ≡ self.old.client.locations }
    {
        'tries: for _ in rt.forever() {
            let Some(glimpse) = self.glimpse(rt, transaction, footprint) else {
                continue 'tries;
            };
            if let Some(viewed) = viewed_on(glimpse) {
                return viewed;
            }
            return Viewed::Committed(self.commit_into(rt, transaction, footprint));
        }
        unreachable!()
    }

    // Some tries to view it in its era; none where that was cut off meanwhile.
    fn glimpse<R: Wait, T: Transact>(
        &mut self,
        rt: &R,
        transaction: &T,
        footprint: &mut Footprint,
    ) -> Option<Glimpse>
        requires fit { T.is_fit transaction.now }
        requires within { T.end transaction.now ≤ self.old.client.locations }
        ensures glimpsed { GlimpsesOnce (limited (T.most transaction.now) (T.meaning transaction.now)) result (standing_of self.old) footprint.new (standing_of self.new) }
        ensures moves { Moves (standing_of self.old) (standing_of self.new) }
        ensures size { self.new.client.locations ≡ self.old.client.locations }
    {
        let LastingCaller {
            shared,
            client,
            place,
        } = self;
        let glimpse = client.glimpse(transaction, footprint);
        if goes_on(rt, shared, client, place) {
            Some(glimpse)
        } else {
            None
        }
    }

    /// What stands at a location, with its version in the handle's era. It is no commit of the handle's share.
    pub fn read<R: Wait>(&mut self, rt: &R, at: Loc) -> Seen
        requires within { at.0 < self.old.client.locations }
        ensures reads { ReadsSo at.0 result (standing_of self.old) (standing_of self.new) }
        ensures moves { Moves (standing_of self.old) (standing_of self.new) }
        ensures size { self.new.client.locations ≡ self.old.client.locations }
    {
        'tries: for _ in rt.forever() {
            if let Some(seen) = self.look(rt, at) {
                return seen;
            }
        }
        unreachable!()
    }

    // What stands there in its era; none where that was cut off meanwhile.
    fn look<R: Wait>(&mut self, rt: &R, at: Loc) -> Option<Seen>
        requires within { at.0 < self.old.client.locations }
        ensures looks { LooksOrPasses at.0 result (standing_of self.old) (standing_of self.new) }
        ensures moves { Moves (standing_of self.old) (standing_of self.new) }
        ensures size { self.new.client.locations ≡ self.old.client.locations }
    {
        let LastingCaller {
            shared,
            client,
            place,
        } = self;
        let seen = client.read(rt, at);
        if goes_on(rt, shared, client, place) {
            Some(seen)
        } else {
            None
        }
    }
}

// Whether the try has seen something worn out.
#[inline(always)]
fn is_worn(fate: Fate, trial: &Trial) -> bool
    ensures { result ≡ is_worn_verdict (verdict_as fate (tried_of trial.now.went trial.now.reply)) }
{
    match fate {
        Fate::WornPool => true,
        Fate::Entered { .. } => matches!(trial.went, Went::Worn(_)),
        Fate::Lost { .. } | Fate::Busy { .. } => false,
    }
}
