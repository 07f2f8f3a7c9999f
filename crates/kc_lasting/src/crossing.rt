//! What a handle does behind each call on its store: it looks whether its era goes on, and else goes over to the last one.

ghost use Rattle.std.specs.Prelude.{◌≡◌, ◌<◌, None, Some, [], true, false};
ghost use Rattle.kc_lasting.specs.Eras.{AreEras, IsEnded, store_at};
ghost use Rattle.kc_lasting.specs.Kept.{ErasKept, HasItsPlace, MovesOn};
ghost use Rattle.kc_lasting.specs.Told.{AddsNoPuts, Counts, Crosses, CrossesOnce, Judged, DoesNothingAs};
ghost use Rattle.kc_roll.specs.Fronts.{StandsAtFront};
ghost use Rattle.kc_store.specs.Knows.{OnlyLearns};

use crate::client::{Client, Fresh};
use crate::eras::Eras;
use crate::line::Line;
use crate::settling::Side;
use crate::shared::{Place, Shared};
use kc_model::Footprint;
use kc_roll::Roll;
use std::alloc::Global;
use std::sync::Wait;

// After how many commits it is tried again to renew, where there was no memory.
const AGAIN_AFTER: u64 = 65_536;

/// Where the last commit of a handle stands that has looked for it.
#[derive(Clone, Copy, Debug, PartialEq, Eq)]
pub enum Crossing {
    /// Its era goes on.
    Stays,
    /// It went over to another era, and the commit stands before the cut.
    Before,
    /// It went over, and the commit stands behind the cut, or puts nothing.
    Behind,
}

/// Whether what was just done stands in the history. Where a cut came between, the handle goes over to the last era.
#[inline(always)]
pub(crate) fn stands<R: Wait>(
    rt: &R,
    shared: &Shared,
    client: &mut Client,
    place: &mut Place,
    footprint: &Footprint,
    worn: bool,
) -> bool
    requires worn { worn ≡ true → AddsNoPuts client.old.seen.value.own client.old.caller footprint.now }
    requires placed { HasItsPlace shared.now.roll client.old.caller.of place.old }
    ensures judged { Judged (IsEnded place.new.page.seen place.old.era) result client.old.seen.value client.old.caller footprint.now client.new.caller client.new.seen.value }
    ensures all { client.new.seen.value.own ≡ client.new.caller.own }
    ensures placed { HasItsPlace shared.now.roll client.new.caller.of place.new }
    ensures moves { MovesOn place.old place.new }
    ensures size { client.new.locations ≡ client.old.locations }
{
    client.caller.shows();
    if client.is_open(rt) {
        if place.left > 0 && !worn {
            place.left -= 1;
            return true;
        }
        return match cross(rt, shared, client, place, &Footprint::new(), true) {
            Crossing::Stays => true,
            Crossing::Before => !worn,
            Crossing::Behind => !worn,
        };
    }
    match cross(rt, shared, client, place, footprint, false) {
        Crossing::Stays => true,
        Crossing::Before => true,
        Crossing::Behind => false,
    }
}

/// Whether the era goes on in which a handle has looked, as it finds. Else it goes over to the last one. A look makes no version, so it
/// uses up nothing of the handle's share.
#[inline(always)]
pub(crate) fn goes_on<R: Wait>(
    rt: &R,
    shared: &Shared,
    client: &mut Client,
    place: &mut Place,
) -> bool
    requires placed { HasItsPlace shared.now.roll client.old.caller.of place.old }
    ensures on { result ≡ true → OnlyLearns client.old.caller client.new.caller × (client.new.seen.value ≡ client.old.caller) × (place.new ≡ place.old) }
    ensures over { result ≡ false → DoesNothingAs (IsEnded place.new.page.seen place.old.era) client.old.seen.value client.old.caller client.new.caller client.new.seen.value }
    ensures all { client.new.seen.value.own ≡ client.new.caller.own }
    ensures placed { HasItsPlace shared.now.roll client.new.caller.of place.new }
    ensures moves { MovesOn place.old place.new }
    ensures size { client.new.locations ≡ client.old.locations }
{
    if client.is_open(rt) {
        return true;
    }
    cross(rt, shared, client, place, &Footprint::new(), false);
    false
}

/// With the eras taken out: begins a new one where the last is the handle's, if that is wanted, and goes over to the last one.
#[cold]
#[inline(never)]
pub(crate) fn cross<R: Wait>(
    rt: &R,
    shared: &Shared,
    client: &mut Client,
    place: &mut Place,
    footprint: &Footprint,
    begins: bool,
) -> Crossing
    requires placed { HasItsPlace shared.now.roll client.old.caller.of place.old }
    ensures crosses { Crosses (IsEnded place.new.page.seen place.old.era) result client.old.seen.value client.old.caller footprint.now client.new.caller client.new.seen.value }
    ensures all { client.new.seen.value.own ≡ client.new.caller.own }
    ensures placed { HasItsPlace shared.now.roll client.new.caller.of place.new }
    ensures moves { MovesOn place.old place.new }
    ensures size { client.new.locations ≡ client.old.locations }
{
    'tries: for _ in rt.forever() {
        if let Some(crossing) = cross_alone(rt, shared, client, place, footprint, begins) {
            return crossing;
        }
    }
    unreachable!()
}

// Takes the eras out meanwhile, so that others wait.
fn cross_alone<R: Wait>(
    rt: &R,
    shared: &Shared,
    client: &mut Client,
    place: &mut Place,
    footprint: &Footprint,
    begins: bool,
) -> Option<Crossing>
    requires placed { HasItsPlace shared.now.roll client.old.caller.of place.old }
    ensures crosses { CrossesOnce (IsEnded place.new.page.seen place.old.era) result client.old.caller client.old.seen.value footprint.now client.new.caller client.new.seen.value }
    ensures stays { result ≡ None → place.new.era ≡ place.old.era }
    ensures placed { HasItsPlace shared.now.roll client.new.caller.of place.new }
    ensures moves { MovesOn place.old place.new }
    ensures size { client.new.locations ≡ client.old.locations }
{
    let (mut eras, taken) = shared.eras.take(rt);
    let crossed = cross_once(rt, shared, &mut eras, client, place, footprint, begins);
    shared.eras.give(taken, eras);
    crossed
}

// With the eras at hand. None where the side can't be told, which never comes.
fn cross_once<R: Wait>(
    rt: &R,
    shared: &Shared,
    eras: &mut Eras,
    client: &mut Client,
    place: &mut Place,
    footprint: &Footprint,
    begins: bool,
) -> Option<Crossing>
    requires kept { ErasKept shared.now.roll eras.old }
    requires placed { HasItsPlace shared.now.roll client.old.caller.of place.old }
    ensures kept { ErasKept shared.now.roll eras.new }
    ensures crosses { CrossesOnce (IsEnded place.new.page.seen place.old.era) result client.old.caller client.old.seen.value footprint.now client.new.caller client.new.seen.value }
    ensures stays { result ≡ None → place.new.era ≡ place.old.era }
    ensures placed { HasItsPlace shared.now.roll client.new.caller.of place.new }
    ensures moves { MovesOn place.old place.new }
    ensures size { client.new.locations ≡ client.old.locations }
{
    renew_if_last(rt, shared, eras, place, begins);
    look_up(&shared.roll, eras, place);
    if eras.number <= place.era {
        client.look_again(rt);
        return Some(Crossing::Stays);
    }
    match eras.settle(client, place, footprint) {
        Side::Before => {
            if go_over(eras, client, place) {
                Some(Crossing::Before)
            } else {
                None
            }
        }
        Side::Behind => {
            if go_over(eras, client, place) {
                Some(Crossing::Behind)
            } else {
                None
            }
        }
        Side::Open | Side::Unknown => None,
    }
}

// Begins a new era if that is wanted, where the last one is the handle's.
fn renew_if_last<R: Wait>(rt: &R, shared: &Shared, eras: &mut Eras, place: &mut Place, begins: bool)
    requires kept { ErasKept shared.now.roll eras.old }
    ensures kept { ErasKept shared.now.roll eras.new }
    ensures place { (place.new.page ≡ place.old.page) × (place.new.era ≡ place.old.era) }
{
    if !begins || eras.number != place.era {
        return;
    }
    if eras.renew(rt, &shared.roll, shared.alloc).is_err() {
        place.left = AGAIN_AFTER;
    }
}

// The handle sees the roll as the eras have it.
fn look_up(roll: &Roll<Line>, eras: &mut Eras, place: &mut Place)
    requires kept { ErasKept roll.now eras.old }
    requires of { place.old.page.of ≡ roll.now }
    requires chain { ∥ AreEras place.old.page.seen ∥₁ }
    ensures eras { eras.new ≡ eras.old }
    ensures of { place.new.page.of ≡ place.old.page.of }
    ensures chain { ∥ AreEras place.new.page.seen ∥₁ }
    ensures sees { StandsAtFront place.old.page.seen place.new.page.seen × StandsAtFront eras.old.page.seen place.new.page.seen }
    ensures era { place.new.era ≡ place.old.era }
{
    let page = roll.again(&mut eras.page);
    roll.join(&mut place.page, page);
}

// Takes the handle's place in the last era.
fn go_over(eras: &mut Eras, client: &mut Client, place: &mut Place) -> bool
    requires kept { ErasKept eras.old.page.of eras.old }
    requires sees { StandsAtFront eras.old.page.seen place.old.page.seen }
    requires later { place.old.era < eras.old.number }
    ensures kept { ErasKept eras.old.page.of eras.new }
    ensures new { result ≡ true → (client.new.caller.own ≡ []) × (client.new.seen.value ≡ client.new.caller) }
    ensures at { result ≡ true → (store_at place.new.page.seen place.new.era ≡ Some client.new.caller.of) × (place.old.era < place.new.era) }
    ensures stays { result ≡ false → (client.new.caller ≡ client.old.caller) × (client.new.seen.value ≡ client.old.seen.value) × (place.new.era ≡ place.old.era) }
    ensures page { place.new.page ≡ place.old.page }
    ensures size { client.new.locations ≡ client.old.locations }
{
    let Some(Fresh { client: next }) = eras.take(place.number) else {
        return false;
    };
    // Each era's store has as many.
    if next.locations != client.locations {
        return false;
    }
    eras.leave(place.era);
    *client = next;
    place.era = eras.number;
    place.left = place.share;
    true
}
