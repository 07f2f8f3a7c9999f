//! What holds of the tests of a text.

ghost use Rattle.std.specs.Prelude.{◌≡◌, ℕ, List, [], ◌∷◌, ◌++◌, All, length, slice_index_or};
ghost use Rattle.kc_history.specs.declared.record.Place.{Place};
ghost use Rattle.kc_history.specs.declared.record.Record.{Record};
ghost use Rattle.kc_model.specs.Store.{Store};
ghost use Rattle.kc_script_bundle.specs.declared.operation.Command.{Command};
ghost use Rattle.kc_script.specs.Spells.{Spells};
ghost use Rattle.kc_script_bundle.specs.On.{CommandsAreOn};
ghost use Rattle.kc_script_bundle.specs.Script.{Script, LieFrom};
ghost use Rattle.kc_script_bundle.specs.State.{state_text};
ghost use Rattle.kc_script_runs.specs.Run.{IsRunText, opening_store};
ghost use Rattle.kc_history.specs.Order.{IsCanonical, Legal};
ghost use Rattle.kc_history.specs.Records.{footprint_at};
ghost use Rattle.kc_xt.specs.Meaning.{values};
ghost use Rattle.kc_check.specs.Faults.{PlacesReplayed, ComesWhole, CheckFails, HasToWait, IsLegalText, IsOutOfTurn, RepliesElse};
ghost use Rattle.kc_check.specs.Laid.{AreFew, TextIsLaid};
ghost use Rattle.kc_check.specs.declared.error.CheckWhy.{CheckWhy as Why};
ghost use Rattle.kc_check.specs.Parts.{Parts, AsMany, IsThreadPlace, joined_lines, parts_text, places_in};

/// Where places come, none of them is wrong behind those before it.
pub fn no_front_is_wrong()
    ensures turn { (limit : ℕ) (threads : List (List Command)) (replies : List (List (List ℕ))) (first : Store) (front back : List Place) (p : Place) (stand stand2 : ℕ → ℕ) (now now2 : Store) (records others : List (List Record)) → PlacesReplayed limit threads replies first (front ++ p ∷ back) stand now records → PlacesReplayed limit threads replies first front stand2 now2 others → IsOutOfTurn limit threads replies first p stand2 now2 → ⊥ }
    ensures waits { (limit : ℕ) (threads : List (List Command)) (replies : List (List (List ℕ))) (first : Store) (front back : List Place) (p : Place) (stand stand2 : ℕ → ℕ) (now now2 : Store) (records others : List (List Record)) → PlacesReplayed limit threads replies first (front ++ p ∷ back) stand now records → PlacesReplayed limit threads replies first front stand2 now2 others → HasToWait limit threads replies first p stand2 now2 → ⊥ }
    ensures reply { (limit : ℕ) (threads : List (List Command)) (replies : List (List (List ℕ))) (first : Store) (front back : List Place) (p : Place) (stand stand2 : ℕ → ℕ) (now now2 : Store) (records others : List (List Record)) → PlacesReplayed limit threads replies first (front ++ p ∷ back) stand now records → PlacesReplayed limit threads replies first front stand2 now2 others → RepliesElse limit threads replies first p stand2 now2 → ⊥ }
{}

/// Where all places come in canonical order, and the lines of the state show the last store, the text is that of a run.
pub fn what_comes_is_a_text()
    ensures { (s : Script) (parts : Parts) (last : Store) (records : List (List Record)) → LieFrom 1 s.objects → ((t : ℕ) → CommandsAreOn s.objects (slice_index_or s.threads t []))
        → ComesWhole s parts last records → IsCanonical (footprint_at records) parts.places → AsMany s.threads parts.replies → All (IsThreadPlace s.threads) parts.places → joined_lines parts.state ≡ state_text s.objects (values last) → IsRunText s records (parts_text s.threads parts) }
{}

/// A text that is laid out for a script is laid out in one way.
pub fn texts_have_their_parts_in_one_way()
    ensures { (s : Script) (text : List ℕ) (a b : Parts) → AreFew s.threads → TextIsLaid s text a → TextIsLaid s text b → a ≡ b }
{}

/// Where all places come, and there are as many as records, the records have a legal list.
pub fn what_comes_is_legal()
    ensures { (s : Script) (parts : Parts) (last : Store) (records : List (List Record)) → All (IsThreadPlace s.threads) parts.places → length parts.places ≡ places_in s.threads → ComesWhole s parts last records → Legal (footprint_at records) (λ (_ : ℕ). 0) (opening_store s) parts.places last }
{}

/// A run's text fails no test.
pub fn texts_of_runs_fail_no_test()
    ensures { (bytes : List ℕ) (s : Script) (text : List ℕ) (line : ℕ) (why : Why) → Spells bytes s → IsLegalText s text → CheckFails s text line why → ⊥ }
{}

/// A text fails one test first, at one line.
pub fn faults_are_one()
    ensures { (bytes : List ℕ) (s : Script) (text : List ℕ) (line again : ℕ) (why other : Why) → Spells bytes s → CheckFails s text line why → CheckFails s text again other → (line ≡ again) × (why ≡ other) }
{}
