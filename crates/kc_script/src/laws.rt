//! What holds of the grammar.

ghost use Rattle.std.specs.Prelude.{◌≡◌, ◌≤◌, ℕ, List, ◌∷◌, length, true, Some, None, Result, Ok, IfOk, IfErr};
ghost use Rattle.kc_script_lines.specs.declared.fault.ScriptError.{ScriptError};
ghost use Rattle.kc_script_lines.specs.declared.fault.ScriptError.TheVariants.{NoMemory};
ghost use Rattle.kc_script_bundle.specs.declared.bundle.Bundle.{Bundle};
ghost use Rattle.kc_script_bundle.specs.declared.bundle.TheConstants.{MOST_THREADS};
ghost use Rattle.kc_script_bundle.specs.Script.{Script, script_of, LiesInOrder, AreSized};
ghost use Rattle.kc_script.specs.Spells.{Spells};
ghost use Rattle.kc_script.specs.Canonical.{canonical_text};
ghost use Rattle.kc_script.specs.FirstFault.{Fault, first_fault};
ghost use Rattle.kc_script.specs.Refused.{SpellNone, Refused};
ghost use Rattle.kc_script.specs.Parts.{SpellsParts, PartFault, first_fault_in_parts, PartsSpellNone};
ghost use Rattle.kc_script.specs.Threads.{AreThreads};
ghost use Rattle.kc_script.specs.Blocks.{OpenBlock, block_of};
ghost use Rattle.kc_script.specs.Reading.{ReadingState, opening_state, all_lines};
ghost use Rattle.kc_term.specs.Tree.{Tree};
ghost use Rattle.kc_script_bundle.specs.declared.operation.Op.{Op};

/// Bytes spell at most one bundle.
pub fn bytes_spell_one()
    ensures { (bytes : List ℕ) (s t : Script) → Spells bytes s → Spells bytes t → s ≡ t }
{}

/// Bytes have a first fault exactly where they spell no bundle.
pub fn faults_are_exact()
    ensures spells { (bytes : List ℕ) → first_fault bytes ≡ None → (s : Script) × Spells bytes s }
    ensures none { (bytes : List ℕ) (fault : Fault) → first_fault bytes ≡ Some fault → SpellNone bytes }
{}

/// The objects of a bundle that bytes spell lie one behind another and have their sizes. It has at most 16 threads, and
/// each has at most 4,096 commands, all on the bundle's objects.
pub fn spelled_is_in_order()
    ensures lies { (bytes : List ℕ) (s : Script) → Spells bytes s → LiesInOrder s }
    ensures sized { (bytes : List ℕ) (s : Script) → Spells bytes s → AreSized s.objects }
    ensures few { (bytes : List ℕ) (s : Script) → Spells bytes s → length s.threads ≤ MOST_THREADS }
    ensures threads { (bytes : List ℕ) (s : Script) → Spells bytes s → AreThreads s.objects s.threads }
{}

/// A block that is open behind some lines is made where it ends: what is too much in a block was refused before, at the
/// line where it was too much.
pub fn blocks_are_made()
    ensures { (texts : List (List ℕ)) (s : ReadingState) (b : OpenBlock) (outer : List OpenBlock) → all_lines (opening_state true) texts ≡ Ok s → s.place.open_blocks ≡ b ∷ outer → (t : Tree Op) × (block_of b ≡ Ok t) }
{}

/// The canonical text of a bundle that bytes spell spells it too.
pub fn canonical_text_spells()
    ensures { (bytes : List ℕ) (s : Script) → Spells bytes s → Spells (canonical_text s) s }
{}

/// Whatever `parse` answers on the canonical text of a bundle that bytes spell, which `print` writes, it is that bundle, or
/// there was no memory.
pub fn printed_is_parsed_again()
    ensures bundle { (bytes : List ℕ) (s : Script) (result : Result Bundle ScriptError) → Spells bytes s → IfOk result (λ bundle. Spells (canonical_text s) (script_of bundle)) → IfOk result (λ bundle. script_of bundle ≡ s) }
    ensures memory { (bytes : List ℕ) (s : Script) (result : Result Bundle ScriptError) → Spells bytes s → IfErr result (Refused (canonical_text s)) → IfErr result (λ error. error ≡ NoMemory) }
{}

/// Parts spell at most one bundle.
pub fn parts_spell_one()
    ensures { (setup : List ℕ) (files : List (List ℕ)) (s t : Script) → SpellsParts setup files s → SpellsParts setup files t → s ≡ t }
{}

/// Parts have a first fault exactly where they spell no bundle.
pub fn faults_of_parts_are_exact()
    ensures spells { (setup : List ℕ) (files : List (List ℕ)) → length files ≤ MOST_THREADS → first_fault_in_parts setup files ≡ None → (s : Script) × SpellsParts setup files s }
    ensures none { (setup : List ℕ) (files : List (List ℕ)) (fault : PartFault) → first_fault_in_parts setup files ≡ Some fault → PartsSpellNone setup files }
{}

/// The objects of a bundle that parts spell lie one behind another and have their sizes. It has a thread for each file, at most
/// 16, and each has at most 4,096 commands, all on the bundle's objects. Its canonical text spells it as a whole.
pub fn parts_are_in_order()
    ensures lies { (setup : List ℕ) (files : List (List ℕ)) (s : Script) → SpellsParts setup files s → LiesInOrder s }
    ensures sized { (setup : List ℕ) (files : List (List ℕ)) (s : Script) → SpellsParts setup files s → AreSized s.objects }
    ensures few { (setup : List ℕ) (files : List (List ℕ)) (s : Script) → SpellsParts setup files s → length s.threads ≤ MOST_THREADS }
    ensures each { (setup : List ℕ) (files : List (List ℕ)) (s : Script) → SpellsParts setup files s → length s.threads ≡ length files }
    ensures threads { (setup : List ℕ) (files : List (List ℕ)) (s : Script) → SpellsParts setup files s → AreThreads s.objects s.threads }
    ensures whole { (setup : List ℕ) (files : List (List ℕ)) (s : Script) → SpellsParts setup files s → Spells (canonical_text s) s }
{}
