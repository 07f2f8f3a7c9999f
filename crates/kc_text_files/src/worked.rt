//! The definitions on worked pairs of files, computed. An empty body: the contract is the law.

ghost use Rattle.std.specs.Prelude.{◌≡◌, ◌∷◌, [], ◌++◌, codes, Some, None};
ghost use Rattle.kc_script_lines.specs.declared.fault.Why.TheVariants as why;
ghost use Rattle.kc_text_files.specs.Files.{file_lines, files_fault, file_line, written_of};

/// What is written of three texts and four picks, the last one with no newline; and a pick above the number of texts is at fault,
/// in part 2 and line 1. Of empty files nothing is written. A line may be an empty text, and a carriage return is a byte of it.
pub fn files_worked()
    ensures written { written_of (file_line (codes "red") ++ file_line (codes "green") ++ file_line (codes "blue")) (file_line (codes "3") ++ file_line (codes "1") ++ file_line (codes "3") ++ codes "2") ≡ file_line (codes "blue") ++ file_line (codes "red") ++ file_line (codes "blue") ++ file_line (codes "green") }
    ensures right { files_fault (file_line (codes "red") ++ file_line (codes "green")) (file_line (codes "2")) ≡ None }
    ensures wrong { files_fault (file_line (codes "red") ++ file_line (codes "green") ++ file_line (codes "blue")) (codes "4") ≡ Some (2, 1, why.BadNumber) }
    ensures empty { (files_fault [] [] ≡ None) × (written_of [] [] ≡ []) }
    ensures lines { file_lines (file_line [] ++ codes "a" ++ 13 ∷ file_line []) ≡ [] ∷ (codes "a" ++ 13 ∷ []) ∷ [] }
{}
