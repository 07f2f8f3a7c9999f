//! What holds of every run of a script.

ghost use Rattle.std.specs.Prelude.{◌≡◌, ℕ, List, [], length, slice_index_or};
ghost use Rattle.kc_model.specs.declared.footprint.Entry.{Entry};
ghost use Rattle.kc_model.specs.Legal.{IsLegal};
ghost use Rattle.kc_model.specs.Store.{Store};
ghost use Rattle.kc_xt.specs.Meaning.{Meaning, values};
ghost use Rattle.kc_script_bundle.specs.On.{CommandsAreOn};
ghost use Rattle.kc_script_bundle.specs.Script.{Script, LieFrom};
ghost use Rattle.kc_script_bundle.specs.State.{AreWellFormed};
ghost use Rattle.kc_script_bundle.specs.declared.operation.Command.{Command};
ghost use Rattle.kc_history.specs.declared.record.Record.{Record};
ghost use Rattle.kc_history.specs.declared.record.Place.{Place};
ghost use Rattle.kc_history.specs.Callers.{HasJust, IsBelowCallers, record_entries};
ghost use Rattle.kc_history.specs.Ends.{AllCanStandIn, HasLegalList};
ghost use Rattle.kc_history.specs.Records.{NamesRecords, footprint_at};
ghost use Rattle.kc_history.specs.Order.{IsCanonical, Legal};
ghost use Rattle.kc_script_runs.specs.Run.{IsScriptRun, opening_store};
ghost use Rattle.kc_script_runs.specs.Looks.{AreCommitsOf, GivesBehindLooks};
ghost use Rattle.kc_script_runs.specs.Threads.{AreAnswered, AreGiven, AreRun, AreRunBy, GivesOne};

/// The order of a run is a legal history of the plain store: it takes in all records, each thread's in its order, and
/// from the script's opening store to the last one each record finds what it read.
pub fn runs_are_legal()
    ensures legal { (script : Script) (records : List (List Record)) (order : List Place) (last : Store) → IsScriptRun script records order last → Legal (footprint_at records) (λ (_ : ℕ). 0) (opening_store script) order last }
    ensures named { (script : Script) (records : List (List Record)) (order : List Place) (last : Store) → IsScriptRun script records order last → NamesRecords records order }
{}

/// Where a script's objects lie in order and its commands are on them, the cells of all objects stand for contents at
/// the end of a run.
pub fn runs_stay_well_formed()
    ensures { (script : Script) (records : List (List Record)) (order : List Place) (last : Store) → LieFrom 1 script.objects → ((t : ℕ) → CommandsAreOn script.objects (slice_index_or script.threads t [])) → IsScriptRun script records order last → AreWellFormed script.objects (values last) }
{}

/// The order of a run determines its records, their footprints too, and its last store. So does a text, which shows the
/// order.
pub fn orders_determine_runs()
    ensures { (script : Script) (records others : List (List Record)) (order : List Place) (last end : Store) → IsScriptRun script records order last → IsScriptRun script others order end → (records ≡ others) × (last ≡ end) }
{}

/// Where a legal history from the script's opening store has the records of its threads, each answered what it means,
/// and nobody else's, it has just these records. They can be arranged, and in the canonical order they are a run of the
/// script, with the history's last store.
pub fn histories_are_runs()
    ensures just { (script : Script) (n : ℕ) (history : List Entry) (records : List (List Record)) → AreRun script.limit n 0 history script.threads records → IsBelowCallers (length script.threads) history → HasJust records history }
    ensures made { (script : Script) (n : ℕ) (history : List Entry) (records : List (List Record)) → AreRun script.limit n 0 history script.threads records → AllCanStandIn n (footprint_at records) }
    ensures arranged { (script : Script) (n : ℕ) (history : List Entry) (records : List (List Record)) (last : Store) → AreRun script.limit n 0 history script.threads records → IsBelowCallers (length script.threads) history → IsLegal (opening_store script) history last → HasLegalList (footprint_at records) }
    ensures run { (script : Script) (n : ℕ) (history : List Entry) (records : List (List Record)) (order : List Place) (last : Store) → AreRun script.limit n 0 history script.threads records → IsBelowCallers (length script.threads) history → IsLegal (opening_store script) history last → IsCanonical (footprint_at records) order → IsScriptRun script records order last }
{}

/// Where each commit gives one entry with the next number, a caller's own list is the entries of its records, numbered
/// from 1; and a list that is these, of records that are answered, is what such commits give.
pub fn commits_of_one_entry_are_their_records()
    ensures entries { (caller : ℕ) (meanings : List Meaning) (records : List Record) (own : List Entry) → AreGiven GivesOne caller meanings [] records own → own ≡ record_entries caller 1 records }
    ensures given { (n caller : ℕ) (meanings : List Meaning) (records : List Record) (own : List Entry) → AreAnswered n meanings records → own ≡ record_entries caller 1 records → AreGiven GivesOne caller meanings [] records own }
{}

/// Where each commit gives one entry behind looks, and the history is legal and of these callers alone, the records are
/// the commits of the history without its looks, which is as legal.
pub fn looks_can_be_left_out()
    ensures { (limit n : ℕ) (first last : Store) (history : List Entry) (threads : List (List Command)) (records : List (List Record)) → AreRunBy GivesBehindLooks limit n 0 history threads records → IsBelowCallers (length threads) history → IsLegal first history last → AreCommitsOf limit n first history last threads records }
{}
