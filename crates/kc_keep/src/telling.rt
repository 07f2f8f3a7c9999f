//! From the answers of calls to what a thread may say of its own entries. The laws do nothing: the contract is the law.

ghost use Rattle.std.specs.Prelude.{◌≡◌, ◌≤◌, ℕ, All, IfSome, List};
ghost use Rattle.kc_await.specs.Adds.{IsToldAtLast, IsToldInTime, WaitsSo};
ghost use Rattle.kc_await.specs.Viewing.{IsViewedAtLast};
ghost use Rattle.kc_keep.specs.Keeping.{CommitsReply, ViewsReply, reply_seen, reply_told};
ghost use Rattle.kc_keep.specs.Only.{CommitsOnly, HasOnly, ServeFrom, Serves, reply_in};
ghost use Rattle.kc_model.specs.declared.footprint.Footprint.{Footprint};
ghost use Rattle.kc_store.specs.Backs.{AreAllCallers};
ghost use Rattle.kc_store.specs.Knows.{CommitsSo, IsTold, OnlyLearns, Remembers, TriesSo};
ghost use Rattle.kc_store.specs.Viewing.{IsViewed};
ghost use Rattle.kc_store.specs.Views.{CallerView, StoreView, opened_caller};
ghost use Rattle.kc_store.specs.declared.values.Outcome.{Outcome};
ghost use Rattle.kc_store.specs.declared.values.Try.{Try};
ghost use Rattle.kc_store.specs.declared.verdict.Answered.{Answered};
ghost use Rattle.kc_store.specs.declared.verdict.Verdict.{Verdict};
ghost use Rattle.kc_store.specs.declared.viewing.Viewed.{Viewed};
ghost use Rattle.kc_xt.specs.Meaning.{Meaning, limited};

use crate::invariant::Invariant;
use kc_await::commit_waiting;
use kc_model::{Footprint, Reply};
use kc_store::{Answered, Caller, Outcome, Store, Viewed, what_is_known_stays_known};
use kc_xt::Transact;
use std::sync::Wait;

/// A commit or a try of one of the meanings, however it was answered, adds entries of these meanings alone: one, or none.
pub fn told_of<I: Invariant>(invariant: &I)
    ensures told { (n : ℕ) (m : Meaning) (a : Verdict) (c : CallerView) (f : Footprint) (d : CallerView) → I.is_one invariant.now m → IsTold (limited n m) a c f d → CommitsOnly (I.is_one invariant.now) c d }
    ensures commits { (n : ℕ) (m : Meaning) (end : ℕ) (a : Outcome) (c d : CallerView) → I.is_one invariant.now m → CommitsSo (limited n m) end a c d → CommitsOnly (I.is_one invariant.now) c d }
    ensures tries { (n : ℕ) (m : Meaning) (end : ℕ) (a : Try) (c d : CallerView) → I.is_one invariant.now m → TriesSo (limited n m) end a c d → CommitsOnly (I.is_one invariant.now) c d }
{}

/// Likewise a commit that waits, also one that waits no longer than a limit: its looks put nothing.
pub fn waited_of<I: Invariant>(invariant: &I)
    ensures told { (n : ℕ) (m : Meaning) (a : Answered) (c : CallerView) (f : Footprint) (d : CallerView) → I.is_one invariant.now m → IsToldAtLast (limited n m) a c f d → CommitsOnly (I.is_one invariant.now) c d }
    ensures waits { (n : ℕ) (m : Meaning) (end : ℕ) (a : Outcome) (c d : CallerView) → I.is_one invariant.now m → WaitsSo (limited n m) end a c d → CommitsOnly (I.is_one invariant.now) c d }
    ensures in_time { (n : ℕ) (m : Meaning) (a : Answered) (c : CallerView) (f : Footprint) (d : CallerView) → I.is_one invariant.now m → IsToldInTime (limited n m) a c f d → CommitsOnly (I.is_one invariant.now) c d }
{}

/// Likewise a view, and one that waits: it adds nothing, or ends as a commit.
pub fn viewed_of<I: Invariant>(invariant: &I)
    ensures viewed { (n : ℕ) (m : Meaning) (a : Viewed) (c : CallerView) (f : Footprint) (d : CallerView) → I.is_one invariant.now m → IsViewed (limited n m) a c f d → CommitsOnly (I.is_one invariant.now) c d }
    ensures waits { (n : ℕ) (m : Meaning) (a : Viewed) (c : CallerView) (f : Footprint) (d : CallerView) → I.is_one invariant.now m → IsViewedAtLast (limited n m) a c f d → CommitsOnly (I.is_one invariant.now) c d }
{}

/// What a caller commits by one call and by the next it commits by both; and a caller that began with no entries has only those
/// that it committed.
pub fn commits_add_up<I: Invariant>(invariant: &I)
    ensures same { (c : CallerView) → CommitsOnly (I.is_one invariant.now) c c }
    ensures then { (c d e : CallerView) → CommitsOnly (I.is_one invariant.now) c d → CommitsOnly (I.is_one invariant.now) d e → CommitsOnly (I.is_one invariant.now) c e }
    ensures learns { (c d : CallerView) → OnlyLearns c d → CommitsOnly (I.is_one invariant.now) c d }
    ensures has { (c d : CallerView) → HasOnly (I.is_one invariant.now) c → CommitsOnly (I.is_one invariant.now) c d → HasOnly (I.is_one invariant.now) d }
    ensures opened { (z : StoreView) (k : ℕ) (d : CallerView) → CommitsOnly (I.is_one invariant.now) (opened_caller z k) d → HasOnly (I.is_one invariant.now) d }
{}

/// Who serves by one call and by the next serves by both; and where all callers of a store served, these are all of its callers,
/// whose entries are of the invariant's meanings alone.
pub fn serving_adds_up<I: Invariant>(invariant: &I)
    ensures same { (c : CallerView) → Serves (I.is_one invariant.now) c c }
    ensures then { (c d e : CallerView) → Serves (I.is_one invariant.now) c d → Serves (I.is_one invariant.now) d e → Serves (I.is_one invariant.now) c e }
    ensures all { (z : StoreView) (callers : List CallerView) → ServeFrom (I.is_one invariant.now) z 0 callers → AreAllCallers z callers }
    ensures only { (z : StoreView) (callers : List CallerView) → ServeFrom (I.is_one invariant.now) z 0 callers → All (HasOnly (I.is_one invariant.now)) callers }
{
    what_is_known_stays_known();
    commits_add_up(invariant);
}

/// Commits one of the invariant's meanings, where it would wait as soon as it needn't: its reply, or None where it is too large or
/// worn.
pub fn commit_kept<R: Wait, I: Invariant, T: Transact>(
    rt: &R,
    store: &Store,
    caller: &mut Caller,
    invariant: &I,
    act: &T,
) -> Option<Reply>
    requires caller { caller.old.of ≡ store.now }
    requires fit { T.is_fit act.now }
    requires within { T.end act.now ≤ store.now.locations }
    requires one { I.is_one invariant.now (T.meaning act.now) }
    ensures serves { Serves (I.is_one invariant.now) caller.old caller.new }
    ensures so { (o : Outcome) × WaitsSo (limited (T.most act.now) (T.meaning act.now)) (T.end act.now) o caller.old caller.new × (result ≡ reply_in o) }
    ensures says { IfSome result (λ a. CommitsReply (limited (T.most act.now) (T.meaning act.now)) a caller.old caller.new) }
{
    waited_of(invariant);
    commit_replied(rt, store, caller, act)
}

/// Views one of the invariant's meanings: its reply, as the view saw it or, where what it read changed too often, as a commit gave it,
/// which has an entry. None where there is no reply: it would wait, would put something, or is too large or worn.
pub fn view_kept<R: Wait, I: Invariant, T: Transact>(
    rt: &R,
    store: &Store,
    caller: &mut Caller,
    invariant: &I,
    act: &T,
) -> Option<Reply>
    requires caller { caller.old.of ≡ store.now }
    requires fit { T.is_fit act.now }
    requires within { T.end act.now ≤ store.now.locations }
    requires one { I.is_one invariant.now (T.meaning act.now) }
    ensures serves { Serves (I.is_one invariant.now) caller.old caller.new }
    ensures so { (v : Viewed) × (f : Footprint) × IsViewed (limited (T.most act.now) (T.meaning act.now)) v caller.old f caller.new × (result ≡ reply_seen v) }
    ensures says { IfSome result (λ a. ViewsReply (limited (T.most act.now) (T.meaning act.now)) a caller.old caller.new) }
{
    viewed_of(invariant);
    caller.shows();
    let mut footprint = Footprint::new();
    let viewed = store.view_into(rt, caller, act, &mut footprint);
    caller.shows();
    reply_viewed(viewed)
}

// The reply of a view that has no entry, or of the commit as which it ended.
fn reply_viewed(answer: Viewed) -> Option<Reply>
    ensures { result ≡ reply_seen answer }
{
    match answer {
        Viewed::Done(reply) => Some(reply),
        Viewed::Committed(answered) => reply_answered(answered),
        _ => None,
    }
}

fn reply_answered(answer: Answered) -> Option<Reply>
    ensures { result ≡ reply_told answer }
{
    match answer {
        Answered::Done(reply) => Some(reply),
        _ => None,
    }
}

/// Commits, where it would wait as soon as it needn't: its reply, or None where it is too large or worn.
pub fn commit_replied<R: Wait, T: Transact>(
    rt: &R,
    store: &Store,
    caller: &mut Caller,
    act: &T,
) -> Option<Reply>
    requires caller { caller.old.of ≡ store.now }
    requires fit { T.is_fit act.now }
    requires within { T.end act.now ≤ store.now.locations }
    ensures of { caller.new.of ≡ store.now }
    ensures remembers { Remembers caller.old caller.new }
    ensures so { (o : Outcome) × WaitsSo (limited (T.most act.now) (T.meaning act.now)) (T.end act.now) o caller.old caller.new × (result ≡ reply_in o) }
    ensures says { IfSome result (λ a. CommitsReply (limited (T.most act.now) (T.meaning act.now)) a caller.old caller.new) }
{
    let outcome = commit_waiting(rt, store, caller, act);
    reply_of(outcome)
}

fn reply_of(outcome: Outcome) -> Option<Reply>
    ensures { result ≡ reply_in outcome }
{
    match outcome {
        Outcome::Done {
            reply,
            footprint: _,
        } => Some(reply),
        _ => None,
    }
}
