//! What holds of a term, a row or two alternatives because it holds of their operations.

ghost use Rattle.std.specs.Prelude.{◌≡◌, ℕ, Bool, List, [], max, true};
ghost use Rattle.kc_xt.specs.Meaning.{first_meaning};
ghost use Rattle.kc_term.specs.Tree.{Tree, operations, seq, trees};
ghost use Rattle.kc_term.specs.Row.{row_of};
ghost use Rattle.kc_term.specs.Meaning.{term_meaning, parts_meaning, greatest_end};
ghost use Rattle.kc_term.specs.Fit.{Each};
ghost use Rattle.kc_term.specs.Laws.{Preserves, LeavesAlone, StaysBelow};

use kc_xt::Transact;

/// A map that meets a test meets it after a term too, where each of its operations preserves this.
pub fn preserves_what_its_operations_preserve<O: Transact>()
    ensures { (test : (ℕ → ℕ) → Bool) (t : Tree O) → Each (λ o. Preserves (λ m. test m ≡ true) (O.meaning o)) (operations t) → Preserves (λ m. test m ≡ true) (term_meaning O.meaning t) }
{}

/// A term writes nothing at a location at which none of its operations writes.
pub fn writes_where_its_operations_write<O: Transact>()
    ensures { (l : ℕ) (t : Tree O) → Each (λ o. LeavesAlone l (O.meaning o)) (operations t) → LeavesAlone l (term_meaning O.meaning t) }
{}

/// A term touches below the greatest end of its operations, where each touches below its own.
pub fn touches_below_its_end<O: Transact>()
    ensures { (t : Tree O) → Each (λ o. StaysBelow (O.end o) (O.meaning o)) (operations t) → StaysBelow (greatest_end O.end (operations t)) (term_meaning O.meaning t) }
{}

/// A row means what the sequence of its operations as a term means, and these are that term's operations: so what is
/// said of terms here holds of rows.
pub fn a_row_is_a_sequence<O: Transact>()
    ensures meaning { (os : List O) → parts_meaning O.meaning (trees (row_of os)) [] ≡ term_meaning O.meaning (seq (trees (row_of os))) }
    ensures operations { (os : List O) → operations (seq (trees (row_of os))) ≡ os }
{}

/// Two alternatives preserve what both preserve, write only where one of them writes, and touch below the greater of
/// their ends.
pub fn alternatives_have_what_both_have<A: Transact, B: Transact>()
    ensures preserves { (test : (ℕ → ℕ) → Bool) (a : A) (b : B) → Preserves (λ m. test m ≡ true) (A.meaning a) → Preserves (λ m. test m ≡ true) (B.meaning b) → Preserves (λ m. test m ≡ true) (first_meaning (A.meaning a) (B.meaning b)) }
    ensures leaves { (l : ℕ) (a : A) (b : B) → LeavesAlone l (A.meaning a) → LeavesAlone l (B.meaning b) → LeavesAlone l (first_meaning (A.meaning a) (B.meaning b)) }
    ensures below { (a : A) (b : B) → StaysBelow (A.end a) (A.meaning a) → StaysBelow (B.end b) (B.meaning b) → StaysBelow (max (A.end a) (B.end b)) (first_meaning (A.meaning a) (B.meaning b)) }
{}
