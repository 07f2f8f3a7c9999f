//! A number of 64 bits in two cells, and what is done to it.

ghost use Rattle.std.specs.Prelude.{◌≤◌, ◌<◌, ◌+◌};
ghost use Rattle.kc_model.specs.declared.plain_store.TheConstants.{MOST_LOCATIONS};

use kc_model::Loc;

/// A number of 64 bits. Its low word, of 32 bits, lies in its first cell, and its high word in its second. Both are
/// locations of a store: below 65,536.
#[derive(Clone, Copy, Debug, PartialEq, Eq)]
pub struct Wide {
    pub(crate) base: Loc,
    ghost laid: { base.0 + 2 ≤ MOST_LOCATIONS },
}

/// What is done to a number of 64 bits.
#[derive(Clone, Copy, Debug, PartialEq, Eq)]
pub enum WideAct {
    /// Replies the number, as two items: its low word and its high word. `number_in` puts them together.
    Get,
    /// Puts a number.
    Put(u64),
    /// Adds, and replies the number before, as `Get` does. The sum wraps.
    Add(u64),
    /// Where the number is the first, puts the second; replies whether it was.
    Cas(u64, u64),
}

/// An operation on a number of 64 bits.
#[derive(Clone, Copy, Debug, PartialEq, Eq)]
pub struct WideOp {
    pub wide: Wide,
    pub act: WideAct,
}
