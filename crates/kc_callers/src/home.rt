//! A caller at home.

use counted_slot::Fits;
use kc_store::{Caller, Store};
use std::marker::Model;

/// The home of a caller. Contracts see its store, and its number there.
#[derive(Drop)]
pub struct Home {
    pub(crate) store: Store,
    pub(crate) number: usize,
}

impl Model for Home {
    ghost use Rattle.std.specs.Prelude.{ℕ};
    ghost use Rattle.kc_store.specs.Views.{StoreView};

    ghost Value = { StoreView × ℕ };

    ghost view = { λ h. (h.store, h.number) };
}

/// A caller that nobody uses.
#[derive(Drop)]
pub struct Idle {
    pub(crate) caller: Caller,
}

impl Fits for Idle {
    ghost use Rattle.std.specs.Prelude.{◌≡◌};

    type Tag = Home;

    ghost fits = { λ home idle. (idle.caller.of ≡ home.0) × (idle.caller.number ≡ home.1) };
}
