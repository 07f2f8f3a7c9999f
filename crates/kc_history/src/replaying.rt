//! The store that records make.

ghost use Rattle.std.specs.Prelude.{◌≡◌, ℕ, Some, length};
ghost use Rattle.kc_model.specs.declared.footprint.Footprint.{Footprint as Print};
ghost use Rattle.kc_model.specs.Store.{Store, Finds, store_of, after};
ghost use Rattle.kc_history.specs.Ends.{AllCanStandIn};
ghost use Rattle.kc_history.specs.Order.{Legal};
ghost use Rattle.kc_history.specs.Records.{footprint_at, lists_of};

use crate::record::Place;
use crate::records::Records;
use kc_model::{Footprint, PlainStore};

/// Applies the records to a store in an order that is legal from it. So they take the store to the last one.
pub fn replay(store: &mut PlainStore, records: &[Records], order: &[Place])
    requires made { AllCanStandIn (length store.old) (footprint_at (lists_of records.now)) }
    requires legal { (last : Store) × Legal (footprint_at (lists_of records.now)) (λ (_ : ℕ). 0) (store_of store.old) order.now last }
    ensures legal { Legal (footprint_at (lists_of records.now)) (λ (_ : ℕ). 0) (store_of store.old) order.now (store_of store.new) }
    ensures size { length store.new ≡ length store.old }
{
    let mut footprint = Footprint::new();
    for i in 0..order.len() {
        apply_at(store, records, order[i], &mut footprint);
    }
}

// Makes of the footprint that of the record at the place, and applies it.
fn apply_at(store: &mut PlainStore, records: &[Records], place: Place, footprint: &mut Footprint)
    requires made { AllCanStandIn (length store.old) (footprint_at (lists_of records.now)) }
    requires finds { (f : Print) × (footprint_at (lists_of records.now) place.thread place.index ≡ Some f) × Finds f (store_of store.old) }
    ensures after { (f : Print) → footprint_at (lists_of records.now) place.thread place.index ≡ Some f → store_of store.new ≡ after f (store_of store.old) }
    ensures size { length store.new ≡ length store.old }
{
    records[place.thread as usize].fill(place.index as usize, footprint);
    if store.apply(footprint).is_err() {
        unreachable!("what the record read stands");
    }
}
