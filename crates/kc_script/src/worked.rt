//! What the definitions come to, on scripts small enough to work by hand.

ghost use Rattle.std.specs.Prelude.{◌≡◌, ◌∷◌, [], codes, Some, None};
ghost use Rattle.kc_script_lines.specs.declared.fault.Why.TheVariants.{BadNumber, ExtraWord, Header, MissingWord, StrayWord, UnclosedBlock, UnknownName, UnknownWord};
ghost use Rattle.kc_script.specs.FirstFault.{first_fault};
ghost use Rattle.kc_script.specs.Parts.{first_fault_in_parts};

/// A setup with one location and two files. Where both add to it nothing is wrong; where the second adds to another location,
/// its name is unknown in line 1 of part 2. Threads begin and objects are declared in no file; a block ends in the file where it
/// begins; a setup has a header and no commands. What is wrong with a part comes before what is wrong with a later one.
pub fn two_files()
    ensures good { first_fault_in_parts (codes "kcas 1\nloc x 0\n") (codes "incr x\n" ∷ codes "incr x\n" ∷ []) ≡ None }
    ensures unknown { first_fault_in_parts (codes "kcas 1\nloc x 0\n") (codes "incr x\n" ∷ codes "incr y\n" ∷ []) ≡ Some (2, (1, UnknownName)) }
    ensures thread { first_fault_in_parts (codes "kcas 1\nloc x 0\n") (codes "incr x\nthread\n" ∷ codes "incr y\n" ∷ []) ≡ Some (1, (2, StrayWord)) }
    ensures declared { first_fault_in_parts (codes "kcas 1\n") (codes "" ∷ codes "loc x 0\n" ∷ []) ≡ Some (2, (1, StrayWord)) }
    ensures block { first_fault_in_parts (codes "kcas 1\n") (codes "\natomic\nor\n" ∷ codes "end\n" ∷ []) ≡ Some (1, (2, UnclosedBlock)) }
    ensures header { first_fault_in_parts (codes "# kcas 1\n") (codes "foo\n" ∷ []) ≡ Some (0, (1, Header)) }
    ensures command { first_fault_in_parts (codes "kcas 1\nloc x 0\nincr x\n") (codes "foo\n" ∷ []) ≡ Some (0, (3, StrayWord)) }
{}

/// A limit from 1 to 256 stands in version 2 alone, once, directly behind the header. In version 1 no line begins with its word.
pub fn limits()
    ensures least { first_fault (codes "kcas 2\nlimit 1\n") ≡ None }
    ensures most { first_fault (codes "kcas 2\n\n# limit\nlimit 256\n") ≡ None }
    ensures below { first_fault (codes "kcas 2\nlimit 0\n") ≡ Some (2, BadNumber) }
    ensures above { first_fault (codes "kcas 2\nlimit 257\n") ≡ Some (2, BadNumber) }
    ensures old { first_fault (codes "kcas 1\nlimit 64\n") ≡ Some (2, UnknownWord) }
    ensures declared { first_fault (codes "kcas 2\nloc x 1\nlimit 64\n") ≡ Some (3, StrayWord) }
    ensures again { first_fault (codes "kcas 2\nlimit 5\nlimit 6\n") ≡ Some (3, StrayWord) }
    ensures version { first_fault (codes "kcas 3\n") ≡ Some (1, Header) }
{}

/// A table that grows is declared in version 2 alone, for 1 to 4,096 keys. In version 1 no line begins with its word, not even where
/// no declaration can stand.
pub fn grown_tables()
    ensures least { first_fault (codes "kcas 2\ngrow g 1\nthread\nput g 1 2\nfind g 1\ndel g 1\nlen g\n") ≡ None }
    ensures most { first_fault (codes "kcas 2\nlimit 5\ngrow g 4096\n") ≡ None }
    ensures below { first_fault (codes "kcas 2\ngrow g 0\n") ≡ Some (2, BadNumber) }
    ensures above { first_fault (codes "kcas 2\ngrow g 4097\n") ≡ Some (2, BadNumber) }
    ensures missing { first_fault (codes "kcas 2\ngrow g\n") ≡ Some (2, MissingWord) }
    ensures old { first_fault (codes "kcas 1\ngrow g 4\n") ≡ Some (2, UnknownWord) }
    ensures stray { first_fault (codes "kcas 1\nthread\ngrow g 4\n") ≡ Some (3, UnknownWord) }
    ensures behind { first_fault (codes "kcas 2\nthread\ngrow g 4\n") ≡ Some (3, StrayWord) }
{}

/// A cancel of a thread from 1 to 16 stands where a command may, also of a thread that isn't there. Its number may begin with zeros.
pub fn cancels()
    ensures last { first_fault (codes "kcas 1\nthread\natomic\ncancel 16\nend\n") ≡ None }
    ensures zeros { first_fault (codes "kcas 1\nthread\ncancel 01\n") ≡ None }
    ensures below { first_fault (codes "kcas 1\nthread\ncancel 0\n") ≡ Some (3, BadNumber) }
    ensures above { first_fault (codes "kcas 1\nthread\ncancel 17\n") ≡ Some (3, BadNumber) }
    ensures missing { first_fault (codes "kcas 1\nthread\ncancel\n") ≡ Some (3, MissingWord) }
    ensures extra { first_fault (codes "kcas 1\nthread\ncancel 17 1\n") ≡ Some (3, ExtraWord) }
    ensures outside { first_fault (codes "kcas 1\ncancel 0\n") ≡ Some (2, StrayWord) }
{}
