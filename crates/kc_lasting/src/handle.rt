//! Handles.

ghost use Rattle.std.specs.Prelude.{◌≡◌, Some};
ghost use Rattle.std.specs.Arc.{arc_value};
ghost use Rattle.kc_lasting.specs.Eras.{AreEras, store_at};

use crate::client::Client;
use crate::shared::{Place, Shared};
use std::alloc::Global;
use std::sync::Arc;

/// A thread's right to use a store that lasts. It has seen a front of the roll of eras, which is a chain, and its caller is of the
/// store of its era there.
#[derive(Drop)]
pub struct LastingCaller {
    pub(crate) shared: Arc<Shared, Global>,
    pub(crate) client: Client,
    pub(crate) place: Place,
    ghost all: { client.seen.value.own ≡ client.caller.own },
    ghost of: { place.page.of ≡ (arc_value shared).roll },
    ghost at: { store_at place.page.seen place.era ≡ Some client.caller.of },
    ghost chain: { ∥ AreEras place.page.seen ∥₁ },
}
