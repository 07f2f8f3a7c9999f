//! What all handles share.

ghost use Rattle.std.specs.Prelude.{◌≡◌, IfOk};
ghost use Rattle.kc_lasting.specs.Kept.{ErasKept};

use crate::eras::Eras;
use crate::line::Line;
use kc_holder::Holder;
use kc_roll::{Page, Roll};
use std::alloc::{AllocError, Global};

/// The eras, which one at a time takes out, and their roll.
#[derive(Drop)]
pub struct Shared {
    pub(crate) alloc: Global,
    pub(crate) eras: Holder<Eras>,
    pub(crate) roll: Roll<Line>,
    ghost tag: { eras.tag ≡ roll },
}

/// A handle's place among the others, and in the eras.
#[derive(Drop)]
pub struct Place {
    pub(crate) number: u32,
    /// The number of its era.
    pub(crate) era: u64,
    /// How many commits it still makes before it asks for a new era.
    pub(crate) left: u64,
    /// And in each further era.
    pub(crate) share: u64,
    /// What it has seen of the roll.
    pub(crate) page: Page<Line>,
}

impl Shared {
    pub(crate) fn of(alloc: Global, eras: Eras, roll: Roll<Line>) -> Result<Shared, AllocError>
        requires { ErasKept roll eras }
        ensures { IfOk result (λ s. s.roll ≡ roll) }
    {
        let eras = Holder::new(alloc, eras, &roll)?;
        Ok(Shared { alloc, eras, roll })
    }
}
