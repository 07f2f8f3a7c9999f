//! An era: a store, from one cut to the next.

ghost use Rattle.std.specs.Prelude.{◌≡◌};

use kc_store::Store;

/// A store that many clients have.
#[derive(Drop)]
pub struct Era {
    pub(crate) store: Store,
}

impl Era {
    pub(crate) fn on(store: Store) -> Era
        ensures { result.store ≡ store }
    {
        Era { store }
    }
}
