//! The numbers of the answers.

ghost use Rattle.std.specs.Prelude.{◌≡◌};
ghost use Rattle.kc_c.specs.declared.answers.TheConstants.{DONE, LATER, TOO_LARGE, WORN, POOL_WORN, LOST, BUSY, PUTS, CHANGED, CLOSED, IS_OPEN, BAD_OPS, NO_MEMORY, BAD_SIZE, NOT_NOW, GOING, HUNG, LEAVING, FREE, QUIET, SIGNALLED, NO_NUMBER};

/// What C is told, number by number: `tools/header.py` compares c/kcas.h with them.
pub fn answers_are_those_of_the_header()
    ensures tries { (DONE ≡ 0) × (LATER ≡ 1) × (TOO_LARGE ≡ 2) × (WORN ≡ 3) × (POOL_WORN ≡ 4) × (LOST ≡ 5) × (BUSY ≡ 6) }
    ensures views { (PUTS ≡ 7) × (CHANGED ≡ 8) }
    ensures refused { (CLOSED ≡ 16) × (IS_OPEN ≡ 17) × (BAD_OPS ≡ 18) × (NO_MEMORY ≡ 19) × (BAD_SIZE ≡ 20) × (NOT_NOW ≡ 21) }
    ensures hangs { (GOING ≡ 32) × (HUNG ≡ 33) × (LEAVING ≡ 34) × (FREE ≡ 35) × (QUIET ≡ 36) × (SIGNALLED ≡ 37) }
    ensures nobody { NO_NUMBER ≡ 4294967295 }
{}
