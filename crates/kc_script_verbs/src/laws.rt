//! What holds of single lines.

ghost use Rattle.std.specs.Prelude.{◌≡◌, ℕ, ◌+◌, List, [], ◌∷◌, ◌++◌, Ok, nat_le};
ghost use Rattle.kc_model.specs.declared.plain_store.TheConstants.{MOST_LOCATIONS};
ghost use Rattle.kc_script_bundle.specs.declared.object.Object.{Object};
ghost use Rattle.kc_script_bundle.specs.declared.operation.Op.{Op};
ghost use Rattle.kc_script_bundle.specs.Script.{Names, cells};
ghost use Rattle.kc_script_bundle.specs.On.{IsOn};
ghost use Rattle.kc_script_lines.specs.Tests.{word_at, first_failing, fault_of};
ghost use Rattle.kc_script_lines.specs.declared.fault.Why.TheVariants.{TooMany};
ghost use Rattle.kc_script_lines.specs.declared.fault.Limit.TheVariants.{Locations};
ghost use Rattle.kc_script_verbs.specs.Canonical.{Says, Declares};
ghost use Rattle.kc_script_verbs.specs.Declaring.{next_location, declare};
ghost use Rattle.kc_script_verbs.specs.Saying.{say};
ghost use Rattle.kc_script_verbs.specs.Fields.{kinds_of, object_kind, kind_fields, verb_fields, declared_size, args_tests};
ghost use Rattle.kc_script_verbs.specs.declared.verb.Verb.{Verb};
ghost use Rattle.kc_script_verbs.specs.declared.word.Kind.{Kind};

/// A line says an operation where its words are those of the operation, up to leading zeros of numbers. It says at most one.
pub fn lines_say_one()
    ensures { (thread : ℕ) (names : Names) (line : List (List ℕ)) (o p : Op) → Says thread names line o → Says thread names line p → o ≡ p }
{}

/// A line declares an object where its words are those of the object, up to leading zeros of numbers. It declares at most
/// one.
pub fn lines_declare_one()
    ensures { (names : Names) (line : List (List ℕ)) (a b : List ℕ × Object) → Declares names line a → Declares names line b → a ≡ b }
{}

/// The operation that a line says is on an object that has a name, or a cancel of a thread that a script may have.
pub fn says_on_objects()
    ensures { (thread : ℕ) (names : Names) (line : List (List ℕ)) (o : Op) → Says thread names line o → IsOn names o }
{}

/// What is wrong with the words of a declaration is the first of these tests that fails: so many words, each word from
/// left to right, and the cells.
pub fn declarations_are_tested()
    ensures tests { (names : Names) (k : Kind) (args : List (List ℕ)) → fault_of (declare names k args) ≡ first_failing (args_tests (kinds_of names) (kind_fields k) args ++ (nat_le (next_location names + declared_size k args) MOST_LOCATIONS, TooMany Locations) ∷ []) }
    ensures name { (names : Names) (k : Kind) (args : List (List ℕ)) (entry : List ℕ × Object) → declare names k args ≡ Ok entry → entry.0 ≡ word_at args 0 }
    ensures kind { (names : Names) (k : Kind) (args : List (List ℕ)) (entry : List ℕ × Object) → declare names k args ≡ Ok entry → object_kind entry.1 ≡ k }
    ensures size { (names : Names) (k : Kind) (args : List (List ℕ)) (entry : List ℕ × Object) → declare names k args ≡ Ok entry → cells entry.1 ≡ declared_size k args }
{}

/// What is wrong with the words of a command is the first of these tests that fails: so many words, and each word from left
/// to right.
pub fn commands_are_tested()
    ensures { (thread : ℕ) (names : Names) (v : Verb) (args : List (List ℕ)) → fault_of (say thread names v args) ≡ first_failing (args_tests (kinds_of names) (verb_fields v) args) }
{}
