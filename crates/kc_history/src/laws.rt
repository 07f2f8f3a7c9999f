//! What holds of the canonical order.

ghost use Rattle.std.specs.Prelude.{◌≡◌, ℕ, List, Some, slice_get};
ghost use Rattle.kc_model.specs.declared.footprint.Entry.{Entry};
ghost use Rattle.kc_model.specs.declared.footprint.Footprint.{Footprint};
ghost use Rattle.kc_model.specs.Footprint.{PutsWhatItReads};
ghost use Rattle.kc_model.specs.Store.{Store};
ghost use Rattle.kc_model.specs.Legal.{IsLegal};
ghost use Rattle.kc_history.specs.declared.arranging.Cycle.{Cycle as Stuck};
ghost use Rattle.kc_history.specs.declared.record.Place.{Place};
ghost use Rattle.kc_history.specs.declared.record.Record.{Record};
ghost use Rattle.kc_history.specs.Callers.{HasJust};
ghost use Rattle.kc_history.specs.Ends.{IsStuck};
ghost use Rattle.kc_history.specs.Moves.{PlacesExchanged, LeavesLooks, footprints_by, placed_from};
ghost use Rattle.kc_history.specs.Order.{Footprints, Legal, IsCanonical};
ghost use Rattle.kc_history.specs.Records.{footprint_at};

/// There is one canonical order, so that the records determine the text.
pub fn one_order_is_canonical()
    ensures { (a : Footprints) (ps qs : List Place) → IsCanonical a ps → IsCanonical a qs → ps ≡ qs }
{}

/// The choice of ready records takes all records in, or is stuck at one place.
pub fn arranging_ends_in_one_way()
    ensures apart { (a : Footprints) (ps : List Place) (c : Stuck) → IsCanonical a ps → IsStuck a c → ⊥ }
    ensures one { (a : Footprints) (c d : Stuck) → IsStuck a c → IsStuck a d → c ≡ d }
{}

/// Where the records have a legal list from versions 0, the canonical order is one, with the same last store. It comes
/// from that list by exchanges of commits of different threads that share no location that one of them puts.
pub fn canonical_is_legal()
    ensures { (a : Footprints) (s e : Store) (ls ps : List Place) →
        ((u k : ℕ) (f : Footprint) → a u k ≡ Some f → PutsWhatItReads f) →
        ((l : ℕ) → (s l).version ≡ 0) →
        Legal a (λ _. 0) s ls e → IsCanonical a ps → Legal a (λ _. 0) s ps e × PlacesExchanged a ls ps }
{}

/// A legal history, whose entries of each caller are a thread's records, is a legal list of the records.
pub fn entries_are_records()
    ensures any { (a : Footprints) (s e : Store) (h : List Entry) →
        IsLegal s h e → ((u k : ℕ) → a u k ≡ slice_get (footprints_by u h) k) → Legal a (λ _. 0) s (placed_from (λ _. 0) h) e }
    ensures lists { (records : List (List Record)) (s e : Store) (h : List Entry) →
        IsLegal s h e → HasJust records h → Legal (footprint_at records) (λ _. 0) s (placed_from (λ _. 0) h) e }
{}

/// A legal history stays legal without entries that only read.
pub fn looks_can_be_left()
    ensures { (s e : Store) (xs ys : List Entry) → LeavesLooks xs ys → IsLegal s xs e → IsLegal s ys e }
{}
