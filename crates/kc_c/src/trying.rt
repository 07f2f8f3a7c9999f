//! One try of C's operations.

ghost use Rattle.std.specs.Prelude.{◌≡◌, ◌<◌, ◌≤◌, ◌==◌, ◌∷◌, [], false, true, length};
ghost use Rattle.kc_c.specs.declared.answers.TheConstants.{DONE};
ghost use Rattle.kc_c.specs.Standings.{rests};
ghost use Rattle.kc_c.specs.Tries.{IsRepliedByItsRead, IsTried, IsTriedSilently, MayTry, add_words, verdict_number, value_told};
ghost use Rattle.kc_calls.specs.Alone.{has_one_location};
ghost use Rattle.kc_calls.specs.Meaning.{CallsAreFit, calls_end, calls_meaning};
ghost use Rattle.kc_calls.specs.Silent.{silent};
ghost use Rattle.kc_loc.specs.Meaning.{LocIsFit, loc_end, loc_meaning};
ghost use Rattle.kc_model.specs.Footprint.{IsBelow};
ghost use Rattle.kc_model.specs.declared.reply.Reply.{Reply};
ghost use Rattle.kc_model.specs.declared.footprint.TheConstants.{MOST};
ghost use Rattle.kc_store.specs.Answers.{Settles};
ghost use Rattle.kc_store.specs.Knows.{IsTold, NotesWear, Remembers};
ghost use Rattle.kc_store.specs.Verdicts.{has_entry, verdict_as};
ghost use Rattle.kc_xt.specs.Commit.{tried_of};
ghost use Rattle.kc_xt.specs.Meaning.{limited};

use crate::answers::{BAD_OPS, BUSY, DONE, LATER, LOST, NOT_NOW, POOL_WORN, TOO_LARGE, WORN};
use crate::client::Client;
use crate::standing::Standing;
use kc_calls::{
    Calls, KcasOp, KcasReply, Silent, alone_on_location, are_operations, first_value, tell,
    told_alone,
};
use kc_loc::LocOp;
use kc_model::{Footprint, Loc};
use kc_store::{Caller, Fate, Store, Wakes};
use kc_xt::{Transact, Trial, Went};

impl Client {
    /// One try of the operations as one transaction. What it read lies in the footprint; at DONE the replies are written.
    pub(crate) fn attempt(
        &mut self,
        ops: &[KcasOp],
        replies: &mut [KcasReply],
        wakes: &mut u64,
    ) -> u32
        ensures not_now { rests self.old.standing ≡ false → (result ≡ NOT_NOW) × (self.new ≡ self.old) × (replies.new ≡ replies.old) × (wakes.new ≡ wakes.old) }
        ensures bad_ops { rests self.old.standing ≡ true → ¬ MayTry self.old.locations ops.now replies.old → (result ≡ BAD_OPS) × (self.new ≡ self.old) × (replies.new ≡ replies.old) × (wakes.new ≡ wakes.old) }
        ensures tried { rests self.old.standing ≡ true → MayTry self.old.locations ops.now replies.old → IsTried ops.now self.old result self.new replies.old replies.new }
    {
        let Client {
            store,
            standing,
            footprint,
            trial,
            locations,
            ..
        } = self;
        let Standing::Rests(caller) = standing else {
            return NOT_NOW;
        };
        if ops.len() > replies.len() {
            return BAD_OPS;
        }
        if let Some(operation) = alone_on_location(ops, *locations) {
            return match operation {
                LocOp::FetchAdd(at, number) => {
                    let add = LocOp::FetchAdd(at, number);
                    try_alone(store, caller, add, footprint, replies, wakes)
                }
                _ => try_other(store, caller, operation, footprint, replies, wakes),
            };
        }
        if !are_operations(ops, *locations) {
            return BAD_OPS;
        }
        let fate = try_calls(store, caller, ops, trial, footprint, wakes);
        if is_done(fate, trial) {
            tell(&trial.reply, &mut replies[..ops.len()]);
            return DONE;
        }
        number_of(fate, trial.went)
    }

    /// One try to add to a location, as one transaction. What it read lies in the footprint; at DONE the value before is written.
    #[inline(always)]
    pub(crate) fn add(
        &mut self,
        location: u32,
        number: u32,
        before: &mut u32,
        wakes: &mut u64,
    ) -> u32
        ensures not_now { rests self.old.standing ≡ false → (result ≡ NOT_NOW) × (self.new ≡ self.old) × (before.new ≡ before.old) × (wakes.new ≡ wakes.old) }
        ensures bad_ops { rests self.old.standing ≡ true → self.old.locations ≤ location → (result ≡ BAD_OPS) × (self.new ≡ self.old) × (before.new ≡ before.old) × (wakes.new ≡ wakes.old) }
        ensures tried { rests self.old.standing ≡ true → location < self.old.locations → IsTried (add_words location number ∷ []) self.old result self.new (value_told before.old ∷ []) (value_told before.new ∷ []) }
    {
        let Client {
            store,
            standing,
            footprint,
            locations,
            ..
        } = self;
        let Standing::Rests(caller) = standing else {
            return NOT_NOW;
        };
        if location >= *locations {
            return BAD_OPS;
        }
        let add = Silent {
            operation: LocOp::FetchAdd(Loc(location), number),
        };
        let answer = try_silently(store, caller, &add, footprint, wakes);
        if answer != DONE {
            return answer;
        }
        *before = first_value(footprint.reads.as_slice());
        DONE
    }
}

// A transaction that does not say what it replies.
#[inline(always)]
fn try_silently<T: Transact>(
    store: &Store,
    caller: &mut Caller,
    transaction: &T,
    footprint: &mut Footprint,
    wakes: &mut u64,
) -> u32
    requires caller { caller.old.of ≡ store.now }
    requires fit { T.is_fit transaction.now }
    requires within { T.end transaction.now ≤ store.now.locations }
    ensures { IsTriedSilently (limited (T.most transaction.now) (T.meaning transaction.now)) (T.end transaction.now) result caller.old caller.new footprint.new }
{
    // Its own trial, which is kept in registers.
    let mut trial = Trial::new();
    let mut noted = Wakes::none();
    let fate = store.try_in_place(caller, transaction, &mut trial, footprint, &mut noted);
    *wakes = noted.bits();
    if is_done(fate, &trial) {
        return DONE;
    }
    number_of(fate, trial.went)
}

// One operation alone, whose reply is told by what was read.
#[inline(always)]
fn try_alone(
    store: &Store,
    caller: &mut Caller,
    operation: LocOp,
    footprint: &mut Footprint,
    replies: &mut [KcasReply],
    wakes: &mut u64,
) -> u32
    requires caller { caller.old.of ≡ store.now }
    requires fit { LocIsFit operation }
    requires one { has_one_location operation ≡ true }
    requires within { loc_end operation ≤ store.now.locations }
    requires room { 0 < length replies.old }
    ensures tried { IsTriedSilently (limited MOST (silent (loc_meaning operation))) (loc_end operation) result caller.old caller.new footprint.new }
    ensures told { IsRepliedByItsRead operation footprint.new result replies.old replies.new }
{
    let silent = Silent { operation };
    let answer = try_silently(store, caller, &silent, footprint, wakes);
    if answer != DONE {
        return answer;
    }
    replies[0] = told_alone(operation, footprint);
    DONE
}

// Kept apart from an add, which programs make most often: there nothing asks again what is done, and no room is wiped but its own.
#[inline(never)]
fn try_other(
    store: &Store,
    caller: &mut Caller,
    operation: LocOp,
    footprint: &mut Footprint,
    replies: &mut [KcasReply],
    wakes: &mut u64,
) -> u32
    requires caller { caller.old.of ≡ store.now }
    requires fit { LocIsFit operation }
    requires one { has_one_location operation ≡ true }
    requires within { loc_end operation ≤ store.now.locations }
    requires room { 0 < length replies.old }
    ensures tried { IsTriedSilently (limited MOST (silent (loc_meaning operation))) (loc_end operation) result caller.old caller.new footprint.new }
    ensures told { IsRepliedByItsRead operation footprint.new result replies.old replies.new }
{
    try_alone(store, caller, operation, footprint, replies, wakes)
}

// Kept apart from one operation alone, for which the room for more would be wiped too, and laid behind it.
#[cold]
#[inline(never)]
fn try_calls(
    store: &Store,
    caller: &mut Caller,
    ops: &[KcasOp],
    trial: &mut Trial,
    footprint: &mut Footprint,
    wakes: &mut u64,
) -> Fate
    requires caller { caller.old.of ≡ store.now }
    requires fit { CallsAreFit ops.now }
    requires within { calls_end ops.now ≤ store.now.locations }
    ensures told { IsTold (limited MOST (calls_meaning ops.now)) (verdict_as result (tried_of trial.new.went trial.new.reply)) caller.old footprint.new caller.new }
    ensures settles { Settles (limited MOST (calls_meaning ops.now)) (verdict_as result (tried_of trial.new.went trial.new.reply)) caller.old.seat footprint.new caller.new.seat }
    ensures notes { NotesWear caller.old (verdict_as result (tried_of trial.new.went trial.new.reply)) caller.new }
    ensures remembers { Remembers caller.old caller.new }
    ensures within { has_entry (verdict_as result (tried_of trial.new.went trial.new.reply)) ≡ true → IsBelow (calls_end ops.now) footprint.new }
{
    let mut noted = Wakes::none();
    let fate = store.try_in_place(caller, &Calls { ops }, trial, footprint, &mut noted);
    *wakes = noted.bits();
    fate
}

fn is_done(fate: Fate, trial: &Trial) -> bool
    ensures { result ≡ (verdict_number (verdict_as fate (tried_of trial.now.went trial.now.reply)) == DONE) }
{
    matches!(fate, Fate::Entered { .. }) && matches!(trial.went, Went::Done)
}

// Kept apart, and told what became of the trial alone, so that the trial's reply need not lie in memory.
#[cold]
#[inline(never)]
fn number_of(fate: Fate, went: Went) -> u32
    ensures { (reply : Reply) → result ≡ verdict_number (verdict_as fate (tried_of went reply)) }
{
    match fate {
        Fate::Entered { .. } => match went {
            Went::Done => DONE,
            Went::Later => LATER,
            Went::TooLarge => TOO_LARGE,
            Went::Worn(_) => WORN,
            Went::Busy => BUSY,
        },
        Fate::Lost { .. } => LOST,
        Fate::WornPool => POOL_WORN,
        Fate::Busy { .. } => BUSY,
    }
}
