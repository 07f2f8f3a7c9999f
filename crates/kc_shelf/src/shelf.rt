//! Where the cells of a shelf lie.

ghost use Rattle.std.specs.Prelude.{◌≤◌, ◌+◌, ◌*◌};
ghost use Rattle.kc_model.specs.declared.plain_store.TheConstants.{MOST_LOCATIONS};

use kc_model::Loc;

/// How many names a value may have.
pub const MOST_NAMES: u32 = u32::MAX;

/// The cells of a shelf: the first free slot, 0 for none; and for each slot the next free one, the life that it is in, and how
/// many names its value has. They are locations of a store. Slots are numbered from 1, at most 21,845.
///
/// A ticket is `life * (slots + 1) + slot`, so a slot has some `2^32 / (slots + 1)` lives, and then rests: no ticket comes twice.
/// All slots together have more than 2^30 lives, and with so many the first cell has had its last version.
#[derive(Clone, Copy, Debug, PartialEq, Eq)]
pub struct Shelf {
    pub(crate) base: Loc,
    pub(crate) slots: u32,
    ghost laid: { base.0 + (1 + 3 * slots) ≤ MOST_LOCATIONS },
    ghost some: { 1 ≤ slots },
}
