//! What the calls answer, by number.

/// It was done; a transaction's puts were made.
pub const DONE: u32 = 0;

/// The transaction would wait for a change of what it read.
pub const LATER: u32 = 1;

/// It would touch more locations than a transaction may.
pub const TOO_LARGE: u32 = 2;

/// It would put a location that stands at its last version.
pub const WORN: u32 = 3;

/// No descriptor has a life left.
pub const POOL_WORN: u32 = 4;

/// Another caller has put what it read.
pub const LOST: u32 = 5;

/// It was given up, with all its steps made.
pub const BUSY: u32 = 6;

/// It would put something, which a view can't.
pub const PUTS: u32 = 7;

/// What a view read has changed since.
pub const CHANGED: u32 = 8;

/// The handle holds no client.
pub const CLOSED: u32 = 16;

/// A handle holds a client already.
pub const IS_OPEN: u32 = 17;

/// These are no operations of one transaction of this store, or there is no room for their replies, or no such location.
pub const BAD_OPS: u32 = 18;

/// The C library gave no memory.
pub const NO_MEMORY: u32 = 19;

/// Too many values, no handle or too many; or no room for a structure's cells, or no such structure.
pub const BAD_SIZE: u32 = 20;

/// Not while the caller stands as it does.
pub const NOT_NOW: u32 = 21;

/// A hang has steps to make.
pub const GOING: u32 = 32;

/// The caller hangs, until it is signalled.
pub const HUNG: u32 = 33;

/// The leave of a hang has steps to make.
pub const LEAVING: u32 = 34;

/// The caller hangs no longer, and may begin a transaction.
pub const FREE: u32 = 35;

/// The signal doesn't stand.
pub const QUIET: u32 = 36;

/// The signal stands.
pub const SIGNALLED: u32 = 37;

/// The number of no caller.
pub const NO_NUMBER: u32 = 0xffff_ffff;
