//! What C's numbers say.

ghost use Rattle.std.specs.Prelude.{◌≡◌, ℕ, Some, IfSome};
ghost use Rattle.kc_calls.specs.declared.kinds.TheConstants.{LOCATION, STACK, QUEUE, TABLE, GROW, CACHE, MVAR, PROMISE, ACCUMULATOR};
ghost use Rattle.kc_calls.specs.declared.reply.TheConstants.{NONE, UNIT, VALUE, BOOL, EMPTY, FULL};
ghost use Rattle.kc_calls.specs.declared.verbs.TheConstants.{NEXT, OR, FED_A, FED_B, FED_BOTH, SAY, GET, SET, EXCHANGE, SWAP, CAS, ADD, INCR, DECR, UPDATE, MODIFY, CHECK, DIFFERS, PUSH, POP, POP_WAIT, TOP, ENQ, DEQ, DEQ_WAIT, FRONT, PUT, FIND, DEL, CPUT, CPUT_WAIT, CGET, CDEL, MPUT, MTAKE, MPEEK, RESOLVE, AWAIT, RESOLVED, BUMP, TOTAL, LEN, PUSH_WAIT, ENQ_WAIT, PUT_WAIT, FUN_ADD, FUN_MAX, FUN_MIN, FUN_AND, FUN_OR, FUN_XOR, EQ, NE, LT, LE, GT, GE};
ghost use Rattle.kc_calls.specs.Said.{call_said};
ghost use Rattle.kc_calls.specs.Words.{op_words, say_words, waiting_words, IsSayable};
ghost use Rattle.kc_calls.specs.declared.call.Call.TheVariants as call;
ghost use Rattle.kc_script_bundle.specs.declared.operation.Op.{Op};

/// Each operation of the script language on a structure of a size that there is has its numbers in C, and they say it and
/// no other one. So do those that wait where it would find no room, and those that reply a number.
pub fn numbers_say_their_operation()
    ensures act { (o : Op) → IsSayable o → call_said (op_words o) ≡ Some (call.Act o) }
    ensures waits { (o : Op) → IsSayable o → IfSome (waiting_words o) (λ w. call_said w ≡ Some (call.WaitForRoom o)) }
    ensures say { (n : ℕ) → call_said (say_words n) ≡ Some (call.Say n) }
{}

/// The numbers that C says and is told, one by one: `tools/header.py` compares c/kcas.h with them.
pub fn numbers_are_those_of_the_header()
    ensures kinds { (LOCATION ≡ 1) × (STACK ≡ 2) × (QUEUE ≡ 3) × (TABLE ≡ 4) × (GROW ≡ 5) × (CACHE ≡ 6) × (MVAR ≡ 7) × (PROMISE ≡ 8) × (ACCUMULATOR ≡ 9) }
    ensures verbs { (SAY ≡ 1) × (GET ≡ 2) × (SET ≡ 3) × (EXCHANGE ≡ 4) × (SWAP ≡ 5) × (CAS ≡ 6) × (ADD ≡ 7) × (INCR ≡ 8) × (DECR ≡ 9) × (UPDATE ≡ 10) × (MODIFY ≡ 11) × (CHECK ≡ 12) × (DIFFERS ≡ 13) × (PUSH ≡ 14) × (POP ≡ 15) × (POP_WAIT ≡ 16) × (TOP ≡ 17) × (ENQ ≡ 18) × (DEQ ≡ 19) × (DEQ_WAIT ≡ 20) × (FRONT ≡ 21) × (PUT ≡ 22) × (FIND ≡ 23) × (DEL ≡ 24) × (CPUT ≡ 25) × (CPUT_WAIT ≡ 26) × (CGET ≡ 27) × (CDEL ≡ 28) × (MPUT ≡ 29) × (MTAKE ≡ 30) × (MPEEK ≡ 31) × (RESOLVE ≡ 32) × (AWAIT ≡ 33) × (RESOLVED ≡ 34) × (BUMP ≡ 35) × (TOTAL ≡ 36) × (LEN ≡ 37) × (PUSH_WAIT ≡ 38) × (ENQ_WAIT ≡ 39) × (PUT_WAIT ≡ 40) }
    ensures marks { (NEXT ≡ 0) × (OR ≡ 1) × (FED_A ≡ 2) × (FED_B ≡ 3) × (FED_BOTH ≡ 4) }
    ensures functions { (FUN_ADD ≡ 1) × (FUN_MAX ≡ 2) × (FUN_MIN ≡ 3) × (FUN_AND ≡ 4) × (FUN_OR ≡ 5) × (FUN_XOR ≡ 6) }
    ensures relations { (EQ ≡ 1) × (NE ≡ 2) × (LT ≡ 3) × (LE ≡ 4) × (GT ≡ 5) × (GE ≡ 6) }
    ensures replies { (NONE ≡ 0) × (UNIT ≡ 1) × (VALUE ≡ 2) × (BOOL ≡ 3) × (EMPTY ≡ 4) × (FULL ≡ 5) }
{}
