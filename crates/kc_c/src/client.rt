//! What a handle of C holds: a caller, with its share of the store.

ghost use Rattle.std.specs.Prelude.{◌≡◌, ◌≤◌, Some, false};
ghost use Rattle.std.specs.Arc.{arc_value};
ghost use Rattle.kc_c.specs.Standings.{is_over, caller_number_in, store_in};
ghost use Rattle.kc_model.specs.declared.plain_store.TheConstants.{MOST_LOCATIONS};

use crate::standing::Standing;
use kc_model::Footprint;
use kc_store::Store;
use kc_xt::Trial;
use std::alloc::Global;
use std::sync::Arc;

/// A caller, the store that it is of, and room for what its last try read, put and replied.
#[derive(Drop)]
pub struct Client {
    pub(crate) store: Arc<Store, Global>,
    pub(crate) standing: Standing,
    pub(crate) footprint: Footprint,
    pub(crate) trial: Trial,
    pub(crate) locations: u32,
    pub(crate) number: u32,
    ghost of: { store_in standing ≡ Some (arc_value store) },
    ghost numbered: { caller_number_in standing ≡ Some number },
    ghost on: { is_over standing ≡ false },
    ghost size: { locations ≡ (arc_value store).locations },
    ghost few: { locations ≤ MOST_LOCATIONS },
}
