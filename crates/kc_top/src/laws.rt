//! What follows of a status.

ghost use Rattle.std.specs.Prelude.{◌≡◌, ◌⊎◌, ℕ, true, List, Contains, Some, drop};
ghost use Rattle.kc_model.specs.Outside.{Rises};
ghost use Rattle.kc_model.specs.Shelves.{IsLonger, Lacks};
ghost use Rattle.kc_check.specs.Faults.{IsLegalText};
ghost use Rattle.kc_check.specs.declared.check.TheConstants.{MOST_TEXT};
ghost use Rattle.kc_check.specs.declared.error.CheckWhy.{CheckWhy as Why};
ghost use Rattle.kc_script.specs.declared.parser.TheConstants.{MOST_BYTES};
ghost use Rattle.kc_history.specs.Callers.{HasJust, IsLegalFrom};
ghost use Rattle.kc_history.specs.declared.record.Record.{Record};
ghost use Rattle.kc_model.specs.declared.footprint.Entry.{Entry};
ghost use Rattle.kc_script_bundle.specs.Script.{Script};
ghost use Rattle.kc_script_runs.specs.Looks.{IsWithoutLooks};
ghost use Rattle.kc_script_storm.specs.Storm.{storm_script};
ghost use Rattle.kc_script_storm.specs.Summary.{commits, summary_text};
ghost use Rattle.kc_top.specs.Complete.{AreGivenBoth, IsGiven, IsInOrder};
ghost use Rattle.kc_top.specs.declared.command_line.Command.{Command as Asked};
ghost use Rattle.kc_top.specs.declared.command_line.Command.TheVariants as command;
ghost use Rattle.kc_top.specs.declared.command_line.Origin.TheVariants as origin;
ghost use Rattle.kc_top.specs.declared.served.Served.{Served as Serving};
ghost use Rattle.kc_top.specs.declared.status.Status.{Status as Ending};
ghost use Rattle.kc_top.specs.declared.status.Status.TheVariants as status;
ghost use Rattle.kc_top.specs.Reading.{FilesSpell, SourceSpells};
ghost use Rattle.kc_top.specs.Served.{IsPastBehindLooks, IsServed};
ghost use Rattle.kc_top.specs.Statuses.{StatusSays, Writes};
ghost use Rattle.kc_top.specs.Words.{bundle_name, command_of, picks_name, store_named, text_name, texts_name};

use kc_model::{Shelf, Sink, Source};

/// Where reading failed, a count of faults rose: the source's, or with file names the shelf's; and then a shelf that is sure
/// lacks one of the names. Of files one is too long whose name is among the words: a bundle to be checked against, or
/// else the text, each by its own limit; and so the texts, or else the picks.
pub fn reading_fails_for_a_cause<S: Source, F: Shelf, K: Sink>()
    ensures source { (words : List (List ℕ)) (s s' : S) (f f' : F) (k k' : K) (served : Serving) → command_of words ≡ Some (command.Run origin.Source)
        → StatusSays S.left S.faults S.read_gives F.files F.faults F.sure F.fetch_gives K.written K.faults K.write_gives words s s' f f' k k' served status.ReadFault → Rises (S.faults s) (S.faults s') }
    ensures shelf { (words : List (List ℕ)) (s s' : S) (f f' : F) (k k' : K) (served : Serving) (setup : ℕ) → command_of words ≡ Some (command.Run (origin.Files setup))
        → StatusSays S.left S.faults S.read_gives F.files F.faults F.sure F.fetch_gives K.written K.faults K.write_gives words s s' f f' k k' served status.ReadFault → Rises (F.faults f) (F.faults f') }
    ensures lacking { (words : List (List ℕ)) (s s' : S) (f f' : F) (k k' : K) (served : Serving) (setup : ℕ) → command_of words ≡ Some (command.Run (origin.Files setup))
        → StatusSays S.left S.faults S.read_gives F.files F.faults F.sure F.fetch_gives K.written K.faults K.write_gives words s s' f f' k k' served status.ReadFault → F.sure f ≡ true → (name : List ℕ) × Contains (drop setup words) name × Lacks (F.files f) name }
    ensures longer { (words : List (List ℕ)) (s s' : S) (f f' : F) (k k' : K) (served : Serving) (setup : ℕ) → command_of words ≡ Some (command.Run (origin.Files setup))
        → StatusSays S.left S.faults S.read_gives F.files F.faults F.sure F.fetch_gives K.written K.faults K.write_gives words s s' f f' k k' served status.TooLong → (name : List ℕ) × Contains (drop setup words) name × IsLonger (F.files f) name MOST_BYTES }
    ensures unchecked { (words : List (List ℕ)) (s s' : S) (f f' : F) (k k' : K) (served : Serving) → command_of words ≡ Some command.Check
        → StatusSays S.left S.faults S.read_gives F.files F.faults F.sure F.fetch_gives K.written K.faults K.write_gives words s s' f f' k k' served status.ReadFault → Rises (F.faults f) (F.faults f') }
    ensures missing { (words : List (List ℕ)) (s s' : S) (f f' : F) (k k' : K) (served : Serving) → command_of words ≡ Some command.Check
        → StatusSays S.left S.faults S.read_gives F.files F.faults F.sure F.fetch_gives K.written K.faults K.write_gives words s s' f f' k k' served status.ReadFault → F.sure f ≡ true → Lacks (F.files f) (bundle_name words) ⊎ Lacks (F.files f) (text_name words) }
    ensures either_longer { (words : List (List ℕ)) (s s' : S) (f f' : F) (k k' : K) (served : Serving) → command_of words ≡ Some command.Check
        → StatusSays S.left S.faults S.read_gives F.files F.faults F.sure F.fetch_gives K.written K.faults K.write_gives words s s' f f' k k' served status.TooLong → IsLonger (F.files f) (bundle_name words) MOST_BYTES ⊎ IsLonger (F.files f) (text_name words) MOST_TEXT }
    ensures unpicked { (words : List (List ℕ)) (s s' : S) (f f' : F) (k k' : K) (served : Serving) → command_of words ≡ Some command.Texts
        → StatusSays S.left S.faults S.read_gives F.files F.faults F.sure F.fetch_gives K.written K.faults K.write_gives words s s' f f' k k' served status.ReadFault → Rises (F.faults f) (F.faults f') }
    ensures absent { (words : List (List ℕ)) (s s' : S) (f f' : F) (k k' : K) (served : Serving) → command_of words ≡ Some command.Texts
        → StatusSays S.left S.faults S.read_gives F.files F.faults F.sure F.fetch_gives K.written K.faults K.write_gives words s s' f f' k k' served status.ReadFault → F.sure f ≡ true → Lacks (F.files f) (texts_name words) ⊎ Lacks (F.files f) (picks_name words) }
    ensures file_longer { (words : List (List ℕ)) (s s' : S) (f f' : F) (k k' : K) (served : Serving) → command_of words ≡ Some command.Texts
        → StatusSays S.left S.faults S.read_gives F.files F.faults F.sure F.fetch_gives K.written K.faults K.write_gives words s s' f f' k k' served status.TooLong → IsLonger (F.files f) (texts_name words) MOST_BYTES ⊎ IsLonger (F.files f) (picks_name words) MOST_BYTES }
{}

/// What a run of a script writes is the text of a legal history of it, as a check wants it.
pub fn what_is_written_is_legal<S: Source, F: Shelf, K: Sink>()
    ensures source { (words : List (List ℕ)) (s s' : S) (f f' : F) (k k' : K) (served : Serving) → command_of words ≡ Some (command.Run origin.Source)
        → StatusSays S.left S.faults S.read_gives F.files F.faults F.sure F.fetch_gives K.written K.faults K.write_gives words s s' f f' k k' served status.Done → (script : Script) × SourceSpells S.left S.faults S.read_gives s s' script × Writes K.written K.faults K.write_gives (IsLegalText script) k k' }
    ensures files { (words : List (List ℕ)) (s s' : S) (f f' : F) (k k' : K) (served : Serving) (setup : ℕ) → command_of words ≡ Some (command.Run (origin.Files setup))
        → StatusSays S.left S.faults S.read_gives F.files F.faults F.sure F.fetch_gives K.written K.faults K.write_gives words s s' f f' k k' served status.Done → (script : Script) × FilesSpell F.files F.faults F.sure F.fetch_gives (drop setup words) f f' script × Writes K.written K.faults K.write_gives (IsLegalText script) k k' }
{}

/// Where the words are a command, what it reads is told, within its limits and spells a bundle, or for a run on texts has
/// no fault, and no count of faults rose or stands at its last number, the command is done, or found no memory; and a
/// check may find a text that is none of a run.
pub fn what_is_in_order_is_done<S: Source, F: Shelf, K: Sink>()
    ensures { (words : List (List ℕ)) (s s' : S) (f f' : F) (k k' : K) (served : Serving) (command : Asked) (end : Ending) → command_of words ≡ Some command → IsGiven words command (S.left s) (F.files f)
        → (Rises (S.faults s) (S.faults s') → ⊥) → (Rises (F.faults f) (F.faults f') → ⊥) → (Rises (K.faults k) (K.faults k') → ⊥) → StatusSays S.left S.faults S.read_gives F.files F.faults F.sure F.fetch_gives K.written K.faults K.write_gives words s s' f f' k k' served end → IsInOrder command end }
{}

/// A check finds no fault in the text of a legal history of its bundle, where the shelf tells both files.
pub fn legal_texts_are_accepted<S: Source, F: Shelf, K: Sink>()
    ensures { (words : List (List ℕ)) (s s' : S) (f f' : F) (k k' : K) (served : Serving) (line : ℕ) (why : Why) → command_of words ≡ Some command.Check → (given : AreGivenBoth (F.files f) (bundle_name words) (text_name words)) → IsLegalText given.script given.text
        → StatusSays S.left S.faults S.read_gives F.files F.faults F.sure F.fetch_gives K.written K.faults K.write_gives words s s' f f' k k' served (status.Illegal line why) → ⊥ }
{}

/// What a storm writes is a function of its number: the one summary that it has. What was served are the 8,004 commits
/// of a run of its script.
pub fn storms_write_their_summary<S: Source, F: Shelf, K: Sink>()
    ensures summary { (words : List (List ℕ)) (s s' : S) (f f' : F) (k k' : K) (served : Serving) (n : ℕ) → command_of words ≡ Some (command.Run (origin.Storm n))
        → StatusSays S.left S.faults S.read_gives F.files F.faults F.sure F.fetch_gives K.written K.faults K.write_gives words s s' f f' k k' served status.Done → Writes K.written K.faults K.write_gives (λ text. text ≡ summary_text n) k k' }
    ensures served { (words : List (List ℕ)) (s s' : S) (f f' : F) (k k' : K) (served : Serving) (n : ℕ) → command_of words ≡ Some (command.Run (origin.Storm n))
        → StatusSays S.left S.faults S.read_gives F.files F.faults F.sure F.fetch_gives K.written K.faults K.write_gives words s s' f f' k k' served status.Done → (records : List (List Record)) × (commits records ≡ 8004) × IsServed (store_named words) (storm_script n) records served }
{}

/// Where commits come behind looks, the past of a run has just its records once the looks are left out: each thread's in
/// its order, and nobody else's. What is left is legal as before, and what was left out put nothing.
pub fn pasts_have_just_the_records_behind_looks()
    ensures { (script : Script) (records : List (List Record)) (values : List ℕ) (history : List Entry) → IsPastBehindLooks script records values history → (commits : List Entry) × IsWithoutLooks history commits × IsLegalFrom values commits × HasJust records commits }
{}
