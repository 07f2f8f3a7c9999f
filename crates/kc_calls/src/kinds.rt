//! The kinds of structures, by number.

/// One location.
pub const LOCATION: u32 = 1;

pub const STACK: u32 = 2;

pub const QUEUE: u32 = 3;

/// A table of as many buckets as were said.
pub const TABLE: u32 = 4;

/// A table that grows.
pub const GROW: u32 = 5;

pub const CACHE: u32 = 6;

/// A place for one value.
pub const MVAR: u32 = 7;

pub const PROMISE: u32 = 8;

/// A total that is kept in several cells.
pub const ACCUMULATOR: u32 = 9;
