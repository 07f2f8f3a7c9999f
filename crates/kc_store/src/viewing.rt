//! Views: transactions that put nothing, run on looks that are confirmed, and leave no entry.

ghost use Rattle.std.specs.Prelude.{◌≡◌, ◌≢◌, ◌⊎◌, ◌≤◌, true, false, [], length};
ghost use Rattle.kc_hang.specs.kc_machine.Seats.{is_idle};
ghost use Rattle.kc_hang.specs.kc_machine_traces.Histories.{IsKnown};
ghost use Rattle.kc_hang.specs.kc_machine_traces.Traces.{first_store};
ghost use Rattle.kc_hang.specs.kc_table_laws.Confirmed.{SeesConfirmed};
ghost use Rattle.kc_hang.specs.kc_table_moves.Views.{knows, opening_at_seat};
ghost use Rattle.kc_model.specs.Footprint.{IsBelow, Reads};
ghost use Rattle.kc_model.specs.declared.footprint.Seen.{Seen as SeenValue};
ghost use Rattle.kc_store.specs.Answers.{GainsNothing};
ghost use Rattle.kc_store.specs.Knows.{OnlyLearns, Remembers};
ghost use Rattle.kc_store.specs.Steps.{busy_bound};
ghost use Rattle.kc_store.specs.Viewing.{Glances, Glimpses, GlimpsesAtLast, InVain, IsGlimpsed, IsViewed, LooksTwice, MissesARead, glimpse_as, has_reads, is_settled, is_worn_went, viewed_as};
ghost use Rattle.kc_store.specs.declared.viewing.Glimpse.TheVariants.{Changed};
ghost use Rattle.kc_table.specs.Turns.{LooksAgain};
ghost use Rattle.kc_xt.specs.Commit.{tried_of};
ghost use Rattle.kc_xt.specs.Meaning.{limited};

use crate::budget::Budget;
use crate::committing::{FIRST_PAUSES, MOST_PAUSES};
use crate::looks::look_and_run;
use crate::store::{Caller, Store};
use crate::tasks::end_look;
use crate::verdict::Answered;
use kc_model::{Footprint, Reply};
use kc_table::{KcSeat, KcTable};
use kc_xt::{Room, Transact, Trial, Went, rest};
use std::sync::Wait;

/// How often a view is tried before its transaction is committed. A view helps nobody: beside a writer that never stops, and where
/// an owner stopped between its installs and its decision, it is changed each time. With a writer that spoils half of the tries one
/// view in 256 comes to the commit, and the pauses between are still short.
pub const MOST_VIEWS: u32 = 8;

/// What one view answers.
#[derive(Clone, Copy, Debug, PartialEq, Eq)]
pub enum Glimpse {
    /// It replied so.
    Done(Reply),
    /// It would wait for a change of what it read.
    Later,
    /// It would touch more locations than its limit.
    TooLarge,
    /// It would put something, which a view can't: nothing was done.
    Puts,
    /// What it read has changed since, or a descriptor stood there.
    Changed,
    /// It was given up after so many steps.
    Busy { steps: u64 },
}

/// What a view answers that ends.
#[derive(Clone, Copy, Debug, PartialEq, Eq)]
pub enum Viewed {
    /// It replied so.
    Done(Reply),
    /// It would wait for a change of what it read.
    Later,
    /// It would touch more locations than its limit.
    TooLarge,
    /// It would put something, which a view can't: nothing was done.
    Puts,
    /// What it read changed too often, so it was committed instead, which was answered so.
    Committed(Answered),
}

/// What became of a view, what its transaction came to aside: few bytes.
#[derive(Clone, Copy, Debug, PartialEq, Eq)]
pub enum Sight {
    /// All that it read stood at one moment.
    Stands,
    /// What it read has changed since, or a descriptor stood there.
    Changed,
    /// All that it read stood at one moment, and by that it would put something.
    Puts,
    /// It was given up after so many steps.
    Busy { steps: u64 },
}

impl Store {
    /// Runs a transaction that puts nothing, once, on looks, and looks at each location that it read once more: where a plain word of
    /// the same version stands at each, all reads stood at one moment between. It has no entry, takes no descriptor and no memory,
    /// changes no word where plain ones stand, never waits, and signals nobody. The footprint is filled with what it read. Its reply
    /// stays where it lies, in the trial: what it answers is `glimpse_as` of the two.
    // It is in line, so that a transaction that its caller knows is known in it, whoever else views one of that type.
    #[inline(always)]
    pub fn view_in_place<T: Transact>(
        &self,
        caller: &mut Caller,
        transaction: &T,
        trial: &mut Trial,
        footprint: &mut Footprint,
    ) -> Sight
        requires caller { caller.old.of ≡ self.now }
        requires fit { T.is_fit transaction.now }
        requires within { T.end transaction.now ≤ self.now.locations }
        ensures glimpsed { IsGlimpsed (limited (T.most transaction.now) (T.meaning transaction.now)) (glimpse_as result (tried_of trial.new.went trial.new.reply)) caller.old footprint.new caller.new }
        ensures looks { is_settled (glimpse_as result (tried_of trial.new.went trial.new.reply)) ≡ true → LooksTwice (limited (T.most transaction.now) (T.meaning transaction.now)) caller.old.seat footprint.new caller.new.seat }
        ensures within { is_settled (glimpse_as result (tried_of trial.new.went trial.new.reply)) ≡ true → IsBelow (T.end transaction.now) footprint.new }
        ensures learns { OnlyLearns caller.old caller.new }
        ensures gains { GainsNothing caller.old.seat caller.new.seat }
    {
        view_by(
            &self.table,
            self.most_steps,
            &mut caller.seat,
            &mut caller.room,
            transaction,
            trial,
            footprint,
        )
    }

    /// One view, as `view_in_place`, answered by value.
    pub fn try_view_into<T: Transact>(
        &self,
        caller: &mut Caller,
        transaction: &T,
        footprint: &mut Footprint,
    ) -> Glimpse
        requires caller { caller.old.of ≡ self.now }
        requires fit { T.is_fit transaction.now }
        requires within { T.end transaction.now ≤ self.now.locations }
        ensures glimpsed { IsGlimpsed (limited (T.most transaction.now) (T.meaning transaction.now)) result caller.old footprint.new caller.new }
        ensures looks { is_settled result ≡ true → LooksTwice (limited (T.most transaction.now) (T.meaning transaction.now)) caller.old.seat footprint.new caller.new.seat }
        ensures within { is_settled result ≡ true → IsBelow (T.end transaction.now) footprint.new }
        ensures learns { OnlyLearns caller.old caller.new }
        ensures gains { GainsNothing caller.old.seat caller.new.seat }
    {
        let mut trial = Trial::new();
        let sight = self.view_in_place(caller, transaction, &mut trial, footprint);
        glimpse_on(sight, &trial)
    }

    /// Views a transaction, up to eight times, until what it read hasn't changed, and answers as that try. It answers Changed exactly
    /// where eight tries were changed or given up, and never Busy.
    pub fn try_views_into<T: Transact>(
        &self,
        caller: &mut Caller,
        transaction: &T,
        footprint: &mut Footprint,
    ) -> Glimpse
        requires caller { caller.old.of ≡ self.now }
        requires fit { T.is_fit transaction.now }
        requires within { T.end transaction.now ≤ self.now.locations }
        ensures glimpsed { is_settled result ≡ true → IsGlimpsed (limited (T.most transaction.now) (T.meaning transaction.now)) result caller.old footprint.new caller.new }
        ensures tries { is_settled result ≡ true → GlimpsesAtLast (limited (T.most transaction.now) (T.meaning transaction.now)) result caller.old footprint.new caller.new }
        ensures vain { is_settled result ≡ false → (result ≡ Changed) × InVain (limited (T.most transaction.now) (T.meaning transaction.now)) caller.old MOST_VIEWS caller.new }
        ensures within { is_settled result ≡ true → IsBelow (T.end transaction.now) footprint.new }
        ensures learns { OnlyLearns caller.old caller.new }
        ensures gains { GainsNothing caller.old.seat caller.new.seat }
    {
        let mut pauses = FIRST_PAUSES;
        for tried in 0..MOST_VIEWS {
            let glimpse = self.try_view_into(caller, transaction, footprint);
            if is_settled(&glimpse) {
                return glimpse;
            }
            rest(pauses);
            pauses = pauses.saturating_mul(2).min(MOST_PAUSES);
        }
        Glimpse::Changed
    }

    /// Views a transaction until what it read hasn't changed. After eight tries in vain it commits the transaction, which helps who
    /// stands in its way, and says so: so it ends as a commit does. Committed, the transaction has an entry, and makes its puts if it
    /// has any then. It takes no memory. A view that would put something, or that would wait, is answered so: nothing hangs on it by this.
    pub fn view_into<R: Wait, T: Transact>(
        &self,
        rt: &R,
        caller: &mut Caller,
        transaction: &T,
        footprint: &mut Footprint,
    ) -> Viewed
        requires caller { caller.old.of ≡ self.now }
        requires fit { T.is_fit transaction.now }
        requires within { T.end transaction.now ≤ self.now.locations }
        ensures viewed { IsViewed (limited (T.most transaction.now) (T.meaning transaction.now)) result caller.old footprint.new caller.new }
        ensures within { has_reads result ≡ true → IsBelow (T.end transaction.now) footprint.new }
        ensures remembers { Remembers caller.old caller.new }
    {
        let glimpse = self.try_views_into(caller, transaction, footprint);
        if let Some(viewed) = viewed_on(glimpse) {
            return viewed;
        }
        Viewed::Committed(self.commit_into(rt, caller, transaction, footprint))
    }
}

// Whether it isn't tried again.
fn is_settled(glimpse: &Glimpse) -> bool
    ensures { result ≡ is_settled glimpse.now }
{
    !matches!(glimpse, Glimpse::Changed | Glimpse::Busy { .. })
}

/// What a view answers that was tried so; None where it is tried again, or committed.
pub fn viewed_on(glimpse: Glimpse) -> Option<Viewed>
    ensures { result ≡ viewed_as glimpse }
{
    match glimpse {
        Glimpse::Done(reply) => return Some(Viewed::Done(reply)),
        Glimpse::Later => return Some(Viewed::Later),
        Glimpse::TooLarge => return Some(Viewed::TooLarge),
        Glimpse::Puts => return Some(Viewed::Puts),
        Glimpse::Changed | Glimpse::Busy { .. } => return None,
    }
}

// The view, by a seat of the table and with room for the lines. What the transaction came to lies in the trial.
#[inline(always)]
fn view_by<T: Transact>(
    table: &KcTable,
    most_steps: u32,
    seat: &mut KcSeat,
    room: &mut Room,
    transaction: &T,
    trial: &mut Trial,
    footprint: &mut Footprint,
) -> Sight
    requires table { seat.old.of ≡ table.now }
    requires steps { most_steps ≡ busy_bound table.now.origin.callers }
    requires idle { is_idle seat.old.seat.work ≡ true }
    requires fit { T.is_fit transaction.now }
    requires within { T.end transaction.now ≤ table.now.origin.locations }
    ensures sees { Glimpses (limited (T.most transaction.now) (T.meaning transaction.now)) (glimpse_as result (tried_of trial.new.went trial.new.reply)) seat.old footprint.new seat.new }
    ensures looks { is_settled (glimpse_as result (tried_of trial.new.went trial.new.reply)) ≡ true → LooksTwice (limited (T.most transaction.now) (T.meaning transaction.now)) seat.old footprint.new seat.new }
    ensures within { is_settled (glimpse_as result (tried_of trial.new.went trial.new.reply)) ≡ true → IsBelow (T.end transaction.now) footprint.new }
    ensures goes { Glances seat.old seat.new }
{
    let before = seat.steps();
    let budget = Budget {
        most: most_steps as u64,
        before,
    };
    look_and_run(table, seat, room, transaction, trial, footprint, budget);
    if let Went::Busy = trial.went {
        let steps = seat.steps() - before;
        return Sight::Busy { steps };
    }
    if !confirm(table, seat, footprint, budget) {
        return Sight::Changed;
    }
    if puts(trial.went, footprint) {
        return Sight::Puts;
    }
    Sight::Stands
}

// Whether it would put something.
#[inline(always)]
fn puts(went: Went, footprint: &Footprint) -> bool
    ensures none { result ≡ false → (is_worn_went went ≡ false) × (footprint.now.puts.items ≡ []) }
    ensures some { result ≡ true → (is_worn_went went ≡ true) ⊎ (footprint.now.puts.items ≢ []) }
{
    if let Went::Worn(_) = went {
        return true;
    }
    footprint.puts.len() != 0
}

// Looks at all reads once more. True where the plain word that each says stood there.
#[inline(always)]
fn confirm(table: &KcTable, seat: &mut KcSeat, footprint: &Footprint, budget: Budget) -> bool
    requires table { seat.old.of ≡ table.now }
    requires idle { is_idle seat.old.seat.work ≡ true }
    requires below { IsBelow seat.old.of.origin.locations footprint.now }
    requires known { (r : SeenValue) → Reads footprint.now r → IsKnown (first_store (opening_at_seat seat.old)) (knows seat.old) r }
    ensures confirmed { result ≡ true → (r : SeenValue) → Reads footprint.now r → SeesConfirmed seat.new (length seat.old.past) r }
    ensures again { result ≡ true → LooksAgain seat.old footprint.now.reads.items seat.new }
    ensures missed { result ≡ false → MissesARead seat.old footprint.now.reads.items seat.new }
    ensures goes { Glances seat.old seat.new }
{
    if table.look_again(seat, footprint.reads.as_slice()) {
        return true;
    }
    if seat.busy() {
        end_look(table, seat, budget);
    }
    false
}

// What it answers.
fn glimpse_on(sight: Sight, trial: &Trial) -> Glimpse
    ensures { result ≡ glimpse_as sight (tried_of trial.now.went trial.now.reply) }
{
    match sight {
        Sight::Stands => match trial.went {
            Went::Done => Glimpse::Done(trial.reply),
            Went::Later => Glimpse::Later,
            Went::TooLarge => Glimpse::TooLarge,
            Went::Worn(_) => Glimpse::Puts,
            Went::Busy => Glimpse::Changed,
        },
        Sight::Changed => Glimpse::Changed,
        Sight::Puts => Glimpse::Puts,
        Sight::Busy { steps } => Glimpse::Busy { steps },
    }
}
