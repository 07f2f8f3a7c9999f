//! What is left when all callers came back, and what holds of it.

ghost use Rattle.std.specs.Prelude.{◌≡◌, All, Contains, map};
ghost use Rattle.kc_keep.specs.Keeping.{CommitsReply, HoldsThroughout, SawReply, SaysWhere};
ghost use Rattle.kc_keep.specs.Only.{HasOnly, ServeFrom, Serves};
ghost use Rattle.kc_keep.specs.Steps.{IsTransitive, LastsThroughout, StepsThroughout};
ghost use Rattle.kc_lay.specs.Placed.{HoldsAtOpening, OpensAsLaid};
ghost use Rattle.kc_model.specs.Legal.{IsLegal};
ghost use Rattle.kc_model.specs.Footprint.{IsBelow};
ghost use Rattle.kc_model.specs.declared.reply.Reply.{Reply};
ghost use Rattle.kc_store.specs.Backs.{AreAllCallers, ShowsItsSeat};
ghost use Rattle.kc_store.specs.Knows.{IsHistory, Remembers};
ghost use Rattle.kc_store.specs.Views.{CallerView, last, past_view, store_opening};
ghost use Rattle.kc_store.specs.kc_table_moves.Views.{IsPast};
ghost use Rattle.kc_xt.specs.Meaning.{Meaning, values};

use crate::invariant::{Invariant, Stepping};
use crate::laws::{holds_throughout, steps_throughout, views_see_it_hold};
use crate::telling::serving_adds_up;
use kc_lay::Layout;
use kc_store::{Caller, Past, Store};

/// All callers come back, whose own entries are all of the invariant's meanings, and the one history shows: the invariant holds
/// behind every front of it, and of what stands at its end. What a view replied, or a commit, it replies at a place where it holds,
/// no older than all that its caller knew, or had committed. All else is as `Store::finish` says.
pub fn finish_kept<I: Invariant>(invariant: &I, store: Store, callers: Vec<Caller>) -> Past
    requires all { AreAllCallers store callers.items }
    requires only { All (HasOnly (I.is_one invariant.now)) callers.items }
    requires opens { I.holds invariant.now (values (store_opening store)) }
    ensures history { IsHistory store callers.items result }
    ensures past { IsPast store.table (map (λ (c : CallerView). c.seat) callers.items) result.past }
    ensures within { All (λ e. IsBelow store.locations e.footprint) result.history }
    ensures shown { result ≡ past_view result.past }
    ensures throughout { HoldsThroughout (I.holds invariant.now) (store_opening store) result.history }
    ensures holds { I.holds invariant.now (values (last result)) }
    ensures views { (m : Meaning) (a : Reply) (c d e : CallerView) → SawReply m a c d → Remembers d e → ShowsItsSeat e → Contains callers.items e → SaysWhere (I.holds invariant.now) (store_opening store) result.history c.known m a }
    ensures commits { (m : Meaning) (a : Reply) (c d e : CallerView) → CommitsReply m a c d → Serves (I.is_one invariant.now) d e → Contains callers.items e → SaysWhere (I.holds invariant.now) (store_opening store) result.history c.own m a }
{
    holds_throughout(invariant);
    views_see_it_hold(invariant);
    store.finish(callers)
}

/// Likewise, and each entry makes the step; where two steps are one, so do any entries between two places.
pub fn finish_stepped<S: Stepping>(stepping: &S, store: Store, callers: Vec<Caller>) -> Past
    requires all { AreAllCallers store callers.items }
    requires only { All (HasOnly (S.is_one stepping.now)) callers.items }
    requires opens { S.holds stepping.now (values (store_opening store)) }
    ensures history { IsHistory store callers.items result }
    ensures past { IsPast store.table (map (λ (c : CallerView). c.seat) callers.items) result.past }
    ensures within { All (λ e. IsBelow store.locations e.footprint) result.history }
    ensures shown { result ≡ past_view result.past }
    ensures throughout { HoldsThroughout (S.holds stepping.now) (store_opening store) result.history }
    ensures holds { S.holds stepping.now (values (last result)) }
    ensures views { (m : Meaning) (a : Reply) (c d e : CallerView) → SawReply m a c d → Remembers d e → ShowsItsSeat e → Contains callers.items e → SaysWhere (S.holds stepping.now) (store_opening store) result.history c.known m a }
    ensures commits { (m : Meaning) (a : Reply) (c d e : CallerView) → CommitsReply m a c d → Serves (S.is_one stepping.now) d e → Contains callers.items e → SaysWhere (S.holds stepping.now) (store_opening store) result.history c.own m a }
    ensures steps { StepsThroughout (S.steps stepping.now) (store_opening store) result.history }
    ensures lasts { IsTransitive (S.steps stepping.now) → LastsThroughout (S.steps stepping.now) (store_opening store) result.history }
{
    steps_throughout(stepping);
    finish_kept(stepping, store, callers)
}

/// Likewise where all callers served from the opening on, in their order, and the store opened as laid.
pub fn finish_served<S: Stepping>(
    stepping: &S,
    layout: &Layout,
    store: Store,
    callers: Vec<Caller>,
) -> Past
    requires served { ServeFrom (S.is_one stepping.now) store 0 callers.items }
    requires laid { OpensAsLaid layout.now (values (store_opening store)) }
    requires opens { HoldsAtOpening (S.holds stepping.now) layout.now }
    ensures history { IsHistory store callers.items result }
    ensures past { IsPast store.table (map (λ (c : CallerView). c.seat) callers.items) result.past }
    ensures within { All (λ e. IsBelow store.locations e.footprint) result.history }
    ensures shown { result ≡ past_view result.past }
    ensures legal { IsLegal (store_opening store) result.history (last result) }
    ensures throughout { HoldsThroughout (S.holds stepping.now) (store_opening store) result.history }
    ensures holds { S.holds stepping.now (values (last result)) }
    ensures views { (m : Meaning) (a : Reply) (c d e : CallerView) → SawReply m a c d → Remembers d e → ShowsItsSeat e → Contains callers.items e → SaysWhere (S.holds stepping.now) (store_opening store) result.history c.known m a }
    ensures commits { (m : Meaning) (a : Reply) (c d e : CallerView) → CommitsReply m a c d → Serves (S.is_one stepping.now) d e → Contains callers.items e → SaysWhere (S.holds stepping.now) (store_opening store) result.history c.own m a }
    ensures steps { StepsThroughout (S.steps stepping.now) (store_opening store) result.history }
    ensures lasts { IsTransitive (S.steps stepping.now) → LastsThroughout (S.steps stepping.now) (store_opening store) result.history }
{
    serving_adds_up(stepping);
    finish_stepped(stepping, store, callers)
}
