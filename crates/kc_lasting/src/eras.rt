//! All eras so far.

use crate::client::{Client, Fresh};
use crate::line::{End, Line};
use counted_slot::Fits;
use kc_roll::{Page, Roll};

/// The eras, and of the last one a caller of its own and those clients whom nobody has taken.
#[derive(Drop)]
pub struct Eras {
    pub(crate) number: u64,
    // How many callers the store of each has.
    pub(crate) callers: u32,
    pub(crate) page: Page<Line>,
    pub(crate) keeper: Client,
    pub(crate) clients: Vec<Option<Fresh>>,
    // How many handles have taken theirs.
    pub(crate) taken: u32,
    // By the numbers of eras: how they ended, as long as a handle has to leave them.
    pub(crate) ended: Vec<Option<End>>,
}

impl Fits for Eras {
    ghost use Rattle.kc_lasting.specs.Kept.{ErasKept};

    type Tag = Roll<Line>;

    ghost fits = { λ roll e. ErasKept roll e };
}
