//! Whether the places of a text stand in the canonical order.

ghost use Rattle.std.specs.Prelude.{◌≡◌, ◌≤◌, ℕ, List, IfNone, IfSome, length};
ghost use Rattle.kc_history.specs.Counts.{records_in};
ghost use Rattle.kc_history.specs.Ends.{AreWellMade};
ghost use Rattle.kc_history.specs.Order.{IsCanonical, Legal};
ghost use Rattle.kc_history.specs.Records.{footprint_at, lists_of};
ghost use Rattle.kc_history.specs.declared.record.Place.{Place as Stands};
ghost use Rattle.kc_model.specs.Store.{Store};
ghost use Rattle.kc_check.specs.Orders.{DiffersAt, IsLegalList};

use kc_history::{Place, Records, Room, arrange};

// The index of the first place that is another one in the order.
fn first_other(places: &[Place], order: &[Place]) -> Option<usize>
    requires { length places.now ≡ length order.now }
    ensures none { IfNone result (places.now ≡ order.now) }
    ensures some { IfSome result (DiffersAt places.now order.now) }
{
    for i in 0..places.len() {
        if places[i] != order[i] {
            return Some(i);
        }
    }
    None
}

/// The index of the first place at which the canonical order of the records has another one. The places are a legal
/// list of the records.
pub(crate) fn first_disorder(
    records: &[Records],
    places: &[Place],
    room: &mut Room,
) -> Option<usize>
    requires made { AreWellMade (footprint_at (lists_of records.now)) }
    requires threads { length records.now ≤ room.old.threads }
    requires records { records_in records.now ≤ room.old.records }
    requires legal { IsLegalList (footprint_at (lists_of records.now)) places.now }
    ensures none { IfNone result (IsCanonical (footprint_at (lists_of records.now)) places.now) }
    ensures some { IfSome result (λ i. (order : List Stands) × IsCanonical (footprint_at (lists_of records.now)) order × DiffersAt places.now order i) }
{
    if arrange(records, room).is_err() {
        unreachable!("the records have a legal list");
    }
    first_other(places, room.order())
}
