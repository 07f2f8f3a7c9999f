//! What holds of picks. An empty body: the contract is the law.

ghost use Rattle.std.specs.Prelude.{All, ◌≡◌, ◌<◌, ◌++◌, ℕ, List};
ghost use Rattle.std.specs.List.{flat_map};
ghost use Rattle.kc_model.specs.declared.footprint.Entry.{Entry};
ghost use Rattle.kc_text.specs.Meaning.{IsText};
ghost use Rattle.kc_text.specs.declared.texts.Texts.{Texts};
ghost use Rattle.kc_text_files.specs.Files.{file_lines, file_line, picked_lines, picks_in, written_of};
ghost use Rattle.kc_text_laws.specs.Owning.{CallerKeeps, none_held};
ghost use Rattle.kc_text_run.specs.Picking.{ArePicks, AreTextsOf};

/// A caller that reads picks at a place keeps to the operations: each lease that it ends it holds.
pub fn picks_keep_to_the_operations()
    ensures { (t : Texts) (p : ℕ) (picks : List ℕ) (es : List Entry) → p < t.places → All (IsText t) picks → ArePicks t p picks es → CallerKeeps t none_held es }
{}

/// The lines of the texts that were read are the picked ones, each with a newline; so what is written of two files is a function
/// of their bytes.
pub fn lines_are_the_picked_ones()
    ensures picked { (pool : List (List ℕ)) (picks : List ℕ) (front back : List (List ℕ)) → AreTextsOf pool picks (front ++ back) → flat_map file_line front ++ flat_map file_line back ≡ picked_lines pool picks }
    ensures written { (texts picks : List ℕ) (front back : List (List ℕ)) → AreTextsOf (file_lines texts) (picks_in picks) (front ++ back) → flat_map file_line front ++ flat_map file_line back ≡ written_of texts picks }
{}
