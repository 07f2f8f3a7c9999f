//! What is done to a structure, by number, and the marks of operations.

// It comes behind the one before.
pub(crate) const NEXT: u32 = 0;

// It begins the next alternative.
pub(crate) const OR: u32 = 1;

// Its number `a` is what the operation of that number replied, the first of its alternative being 0.
pub(crate) const FED_A: u32 = 2;

// Its number `b` is.
pub(crate) const FED_B: u32 = 3;

// Both are.
pub(crate) const FED_BOTH: u32 = 4;

// To nothing: it replies a number.
pub(crate) const SAY: u32 = 1;

// To a location.
pub(crate) const GET: u32 = 2;

pub(crate) const SET: u32 = 3;

pub(crate) const EXCHANGE: u32 = 4;

pub(crate) const SWAP: u32 = 5;

pub(crate) const CAS: u32 = 6;

pub(crate) const ADD: u32 = 7;

pub(crate) const INCR: u32 = 8;

pub(crate) const DECR: u32 = 9;

pub(crate) const UPDATE: u32 = 10;

pub(crate) const MODIFY: u32 = 11;

pub(crate) const CHECK: u32 = 12;

pub(crate) const DIFFERS: u32 = 13;

// To a stack.
pub(crate) const PUSH: u32 = 14;

pub(crate) const POP: u32 = 15;

pub(crate) const POP_WAIT: u32 = 16;

pub(crate) const TOP: u32 = 17;

// To a queue.
pub(crate) const ENQ: u32 = 18;

pub(crate) const DEQ: u32 = 19;

pub(crate) const DEQ_WAIT: u32 = 20;

pub(crate) const FRONT: u32 = 21;

// To a table of either kind.
pub(crate) const PUT: u32 = 22;

pub(crate) const FIND: u32 = 23;

pub(crate) const DEL: u32 = 24;

// To a cache.
pub(crate) const CPUT: u32 = 25;

pub(crate) const CPUT_WAIT: u32 = 26;

pub(crate) const CGET: u32 = 27;

pub(crate) const CDEL: u32 = 28;

// To a one-place variable.
pub(crate) const MPUT: u32 = 29;

pub(crate) const MTAKE: u32 = 30;

pub(crate) const MPEEK: u32 = 31;

// To a promise.
pub(crate) const RESOLVE: u32 = 32;

pub(crate) const AWAIT: u32 = 33;

pub(crate) const RESOLVED: u32 = 34;

// To an accumulator.
pub(crate) const BUMP: u32 = 35;

pub(crate) const TOTAL: u32 = 36;

// To a stack, queue, table or cache.
pub(crate) const LEN: u32 = 37;

// To a stack, queue or table, which waits where there is no room.
pub(crate) const PUSH_WAIT: u32 = 38;

pub(crate) const ENQ_WAIT: u32 = 39;

pub(crate) const PUT_WAIT: u32 = 40;

// The functions of UPDATE and MODIFY.
pub(crate) const FUN_ADD: u32 = 1;

pub(crate) const FUN_MAX: u32 = 2;

pub(crate) const FUN_MIN: u32 = 3;

pub(crate) const FUN_AND: u32 = 4;

pub(crate) const FUN_OR: u32 = 5;

pub(crate) const FUN_XOR: u32 = 6;

// The relations of CHECK.
pub(crate) const EQ: u32 = 1;

pub(crate) const NE: u32 = 2;

pub(crate) const LT: u32 = 3;

pub(crate) const LE: u32 = 4;

pub(crate) const GT: u32 = 5;

pub(crate) const GE: u32 = 6;
