//! What the answers of a run may be.

ghost use Rattle.std.specs.Prelude.{ℕ, List};
ghost use Rattle.kc_history.specs.declared.record.Place.{Place};
ghost use Rattle.kc_history.specs.declared.record.Record.{Record};
ghost use Rattle.kc_model.specs.Store.{Store};
ghost use Rattle.kc_script.specs.Spells.{Spells};
ghost use Rattle.kc_script_bundle.specs.Script.{Script};
ghost use Rattle.kc_script_runs.specs.Run.{IsScriptRun};
ghost use Rattle.kc_script_small.specs.Small.{AllAnswersFit};

/// In a run of a script that bytes spell, each answer has numbers of 32 bits alone, and at most 16 items: the script
/// names no others, locations open with no others, and from such numbers no operation makes others.
pub fn answers_of_runs_fit()
    ensures { (bytes : List ℕ) (s : Script) (records : List (List Record)) (order : List Place) (last : Store) → Spells bytes s → IsScriptRun s records order last → AllAnswersFit records }
{}
