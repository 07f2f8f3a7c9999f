//! What holds of all eras. The laws do nothing: the contract is the law.

ghost use Rattle.std.specs.Prelude.{◌≡◌, ◌<◌, ◌≤◌, ℕ, ◌+◌, ◌*◌, ◌++◌, Some, List, [], ◌∷◌, Contains, length, map};
ghost use Rattle.atomic_table.specs.Seated.{TableId};
ghost use Rattle.kc_lasting.specs.Cuts.{IsKnownAt, left_by};
ghost use Rattle.kc_lasting.specs.Eras.{AreEras, IsEnded, first_line, store_at};
ghost use Rattle.kc_lasting.specs.Opening.{IsFirst};
ghost use Rattle.kc_lasting.specs.Settled.{StandsBefore, entries_known};
ghost use Rattle.kc_lasting.specs.Told.{EndsIn, HandleView, LooksSo, Moves, standing_of};
ghost use Rattle.kc_lasting.specs.declared.handle.LastingCaller.{LastingCaller as LastingHandle};
ghost use Rattle.kc_lasting.specs.declared.line.Line.{Line};
ghost use Rattle.kc_lasting_laws.specs.Counts.{FewEach};
ghost use Rattle.kc_lasting_laws.specs.Flat.{flat_history, versions_before};
ghost use Rattle.kc_lasting_laws.specs.Raised.{AgreesRaised, AllLieBelow, entry_raised, footprint_raised};
ghost use Rattle.kc_lasting_laws.specs.Shown.{EraIsOver, FrontFinds, FrontShows};
ghost use Rattle.kc_model.specs.Footprint.{IsBelow};
ghost use Rattle.kc_model.specs.Legal.{IsLegal};
ghost use Rattle.kc_model.specs.Store.{Finds, Store};
ghost use Rattle.kc_model.specs.declared.footprint.Entry.{Entry};
ghost use Rattle.kc_model.specs.declared.footprint.Footprint.{Footprint};
ghost use Rattle.kc_model.specs.declared.footprint.Seen.{Seen};
ghost use Rattle.kc_model.specs.declared.reply.Answer.{Answer};
ghost use Rattle.kc_roll.specs.Fronts.{StandsAtFront};
ghost use Rattle.kc_store.specs.Knows.{IsWithin};
ghost use Rattle.kc_store.specs.Viewing.{StandsAtOnce};
ghost use Rattle.kc_store.specs.Views.{CallerView, StoreView, store_opening};
ghost use Rattle.kc_store.specs.kc_table_laws.Tasks.{KeepsKnown};
ghost use Rattle.kc_xt.specs.Commit.{Answers, answer_of, run_on};
ghost use Rattle.kc_xt.specs.Meaning.{Meaning};

use kc_lasting::LastingCaller;

/// All that a handle sees of the eras begins with the store that was opened. The histories of the eras that have ended, one behind
/// another, each with the versions that those before had made, are one list that is legal from that opening. It makes what the last
/// store opened with, versions added up, so that any history of the last era goes on from there.
pub fn the_eras_are_one_history()
    ensures opening { (roll : TableId) (z : StoreView) (h : LastingHandle) (d : HandleView) → IsFirst roll z h → Moves (standing_of h) d → StandsAtFront (first_line z ∷ []) d.lines }
    ensures legal { (z : StoreView) (lines : List Line) → StandsAtFront (first_line z ∷ []) lines → AreEras lines → IsLegal (store_opening z) (flat_history lines) (left_by z (flat_history lines)) }
    ensures makes { (z y : StoreView) (lines : List Line) (k : ℕ) → StandsAtFront (first_line z ∷ []) lines → AreEras lines → length lines ≡ k + 1 → store_at lines k ≡ Some y → AgreesRaised y.locations (versions_before lines k) (left_by z (flat_history lines)) (store_opening y) }
    ensures goes_on { (z y : StoreView) (lines : List Line) (k : ℕ) (es : List Entry) → StandsAtFront (first_line z ∷ []) lines → AreEras lines → length lines ≡ k + 1 → store_at lines k ≡ Some y → IsLegal (store_opening y) es (left_by y es) → AllLieBelow y.locations es → IsLegal (store_opening z) (flat_history lines ++ map (entry_raised (versions_before lines k)) es) (left_by z (flat_history lines ++ map (entry_raised (versions_before lines k)) es)) }
{}

/// What stands in the history of an era that has ended stands in the one history, in its order: each entry, and all that a handle had
/// committed in that era.
pub fn entries_of_eras_stand_in_it()
    ensures entry { (lines : List Line) (k : ℕ) (history : List Entry) (x : Entry) → IsEnded lines k history → Contains history x → Contains (flat_history lines) (entry_raised (versions_before lines k) x) }
    ensures all { (lines : List Line) (k : ℕ) (history own : List Entry) → IsEnded lines k history → IsWithin own history → IsWithin (map (entry_raised (versions_before lines k)) own) (flat_history lines) }
    ensures handle { (lines : List Line) (h : HandleView) → EndsIn lines h → ∥ IsWithin (map (entry_raised (versions_before lines h.era)) h.caller.own) (flat_history lines) ∥₁ }
{}

/// What a handle has seen of the eras is one legal history, from the opening of the store with which they began.
pub fn shows_one_history(handle: &LastingCaller)
    ensures { (z : StoreView) → StandsAtFront (first_line z ∷ []) (standing_of handle.now).lines → ∥ IsLegal (store_opening z) (flat_history (standing_of handle.now).lines) (left_by z (flat_history (standing_of handle.now).lines)) ∥₁ }
{
    handle.shows();
}

/// What a meaning was answered, with an entry's footprint, it is answered at the entry's place in the one history.
pub fn replies_hold_in_the_one_history()
    ensures { (b : ℕ → ℕ) (m : Meaning) (a : Answer) (f : Footprint) (s : Store) → Answers m a f → Finds (footprint_raised b f) s → answer_of (run_on m s).outcome ≡ Some a }
{}

/// A list of entries raises the version of a location at most by one for each of them; and it has at most so many as its callers
/// made. So no location comes to its last version in an era of few enough commits.
pub fn few_commits_wear_nothing_out()
    ensures entries { (z : StoreView) (es : List Entry) (l : ℕ) → (left_by z es l).version ≤ (store_opening z l).version + length es }
    ensures callers { (z : StoreView) (es : List Entry) (n m l : ℕ) → FewEach n m es → (left_by z es l).version ≤ (store_opening z l).version + n * m }
{}

/// What a handle had been shown in its era as it last found that nobody had begun to cut it off stands in the one history, once the
/// era has ended: some front of it leaves at the location what a read saw, and some front finds all reads of a view, and has all that
/// the handle knew as the view began; versions raised.
pub fn what_was_shown_stands_in_the_one_history()
    ensures read { (z y : StoreView) (lines : List Line) (k number : ℕ) (part had : List Entry) (s : CallerView) (l : ℕ) (r : Seen) → StandsAtFront (first_line z ∷ []) lines → AreEras lines → store_at lines k ≡ Some y → IsEnded lines k part → StandsBefore y number had s part → l < y.locations → IsKnownAt s.seat l r → FrontShows z lines k l r }
    ensures view { (z y : StoreView) (lines : List Line) (k number : ℕ) (part had : List Entry) (s c d : CallerView) (f : Footprint) → StandsAtFront (first_line z ∷ []) lines → AreEras lines → store_at lines k ≡ Some y → IsEnded lines k part → StandsBefore y number had s part → IsBelow y.locations f → StandsAtOnce f c d → KeepsKnown d.seat s.seat → FrontFinds z lines k (entries_known c.seat) f }
    ensures handle_reads { (z : StoreView) (l : ℕ) (r : Seen) (c d e : HandleView) → LooksSo l r c d → l < d.caller.of.locations → EraIsOver z d e → ∥ FrontShows z e.lines d.era l r ∥₁ }
    ensures handle_views { (z : StoreView) (c d e : HandleView) (f : Footprint) → StandsAtOnce f c.caller d.confirmed → IsBelow d.caller.of.locations f → EraIsOver z d e → ∥ FrontFinds z e.lines d.era (entries_known c.caller.seat) f ∥₁ }
{}
