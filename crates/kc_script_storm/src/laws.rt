//! What holds of every run of a storm.

ghost use Rattle.std.specs.Prelude.{◌≡◌, ◌≤◌, ◌<◌, ℕ, List, [], length, slice_index_or};
ghost use Rattle.kc_model.specs.Store.{Store};
ghost use Rattle.kc_xt.specs.Meaning.{values};
ghost use Rattle.kc_xt.specs.Program.{wrapped};
ghost use Rattle.kc_script_bundle.specs.Script.{LiesInOrder, AreSized};
ghost use Rattle.kc_script_bundle.specs.On.{CommandsAreOn};
ghost use Rattle.kc_history.specs.declared.record.Record.{Record};
ghost use Rattle.kc_history.specs.declared.record.Place.{Place};
ghost use Rattle.kc_script_runs.specs.Run.{IsScriptRun};
ghost use Rattle.kc_script.specs.Canonical.{canonical_text};
ghost use Rattle.kc_script.specs.Spells.{Spells};
ghost use Rattle.kc_script_storm.specs.Storm.{storm_script};
ghost use Rattle.kc_script_storm.specs.State.{storm_state, all_adds};
ghost use Rattle.kc_script_storm.specs.Summary.{commits, ok_commands, IsSummary, summary_text};

/// Whatever the order in which its commits stand, every run of a storm has 8,004 of them, 8,000 are commands that reply
/// `ok` alone, and the last store has the values that its threads leave one after another.
pub fn runs_come_to_one_state()
    ensures commits { (n : ℕ) (records : List (List Record)) (order : List Place) (last : Store) → IsScriptRun (storm_script n) records order last → commits records ≡ 8004 }
    ensures oks { (n : ℕ) (records : List (List Record)) (order : List Place) (last : Store) → IsScriptRun (storm_script n) records order last → ok_commands records ≡ 8000 }
    ensures state { (n : ℕ) (records : List (List Record)) (order : List Place) (last : Store) → IsScriptRun (storm_script n) records order last → values last ≡ storm_state n }
{}

/// A storm has one summary, whichever its run was.
pub fn summaries_are_one()
    ensures { (n : ℕ) (records : List (List Record)) (text : List ℕ) → IsSummary n records text → text ≡ summary_text n }
{}

/// What a storm leaves at a location above 0 is the sum of all that its commands add there.
pub fn states_are_sums()
    ensures { (n l : ℕ) → 1 ≤ l → storm_state n l ≡ wrapped (all_adds (storm_script n).threads l) }
{}

/// A storm's objects lie one behind another and have their sizes. It has four threads, each of 2,000 commands, all on
/// its objects.
pub fn storms_are_in_order()
    ensures lies { (n : ℕ) → LiesInOrder (storm_script n) }
    ensures sized { (n : ℕ) → AreSized (storm_script n).objects }
    ensures four { (n : ℕ) → length (storm_script n).threads ≡ 4 }
    ensures commands { (n t : ℕ) → t < 4 → length (slice_index_or (storm_script n).threads t []) ≡ 2000 }
    ensures on { (n t : ℕ) → CommandsAreOn (storm_script n).objects (slice_index_or (storm_script n).threads t []) }
{}

/// The canonical text of a storm spells it, so that it can be printed and read again.
pub fn storms_can_be_spelled()
    ensures { (n : ℕ) → Spells (canonical_text (storm_script n)) (storm_script n) }
{}
