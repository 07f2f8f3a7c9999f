//! The canonical order, found in room that was taken before.

ghost use Rattle.std.specs.Prelude.{◌≡◌, ◌+◌, ◌*◌, ◌^◌, ◌<◌, ◌≤◌, ◌↔◌, All, IfOk, IfErr, IsOk, IsTrue, [], length, take, vec_capacity};
ghost use Rattle.kc_history.specs.Records.{footprint_at, lists_of};
ghost use Rattle.kc_history.specs.Order.{IsCanonical};
ghost use Rattle.kc_history.specs.Counts.{AllWellMade, foot_at, records_in};
ghost use Rattle.kc_history.specs.Ends.{AreWellMade, CanStand, HasLegalList, IsStuck};

use crate::counting::{clear_numbers, count_records};
use crate::placing::{Tested, UNTESTED, clear_tests, first_left, place_all};
use crate::record::Place;
use crate::records::Records;
use kc_model::{Footprint, MOST, MOST_LOCATIONS, NoMemory};
use std::alloc::Global;
use std::marker::Model;

/// Room for the order of so many threads and records. Contracts see both numbers, and the order that was found last.
#[derive(Drop)]
pub struct Room {
    order: Vec<Place>,
    placed: usize,
    next: Vec<u32>,
    versions: Vec<u32>,
    starts: Vec<usize>,
    left: Vec<usize>,
    tested: Vec<Tested>,
}

impl Model for Room {
    ghost use Rattle.std.specs.Prelude.{◌≡◌, ◌+◌, ◌*◌, ◌^◌, ◌<◌, ◌≤◌, take, vec_capacity, vec_len};
    ghost use Rattle.kc_model.specs.declared.footprint.TheConstants.{MOST};
    ghost use Rattle.kc_model.specs.declared.plain_store.TheConstants.{MOST_LOCATIONS};
    ghost use Rattle.kc_history.specs.Rooms.{RoomValue};

    ghost Value = { RoomValue };

    ghost view = { λ r. record { threads = vec_len r.next; records = vec_len r.order; order = take r.placed r.order.items } };

    ghost invariant = { λ r. (vec_len r.versions ≡ MOST_LOCATIONS) × (vec_len r.starts ≡ MOST_LOCATIONS + 1) × (MOST_LOCATIONS + 1 + MOST * vec_len r.order ≤ vec_capacity r.left) × (vec_len r.order < 2 ^ 32) × (vec_len r.next < 2 ^ 32) × (vec_len r.tested ≡ vec_len r.next) × (r.placed ≤ vec_len r.order) };
}

/// No record that is left is ready: the lowest thread with a record left, and that record's place in it, both from 1.
#[derive(Clone, Copy, Debug, PartialEq, Eq)]
pub struct Cycle {
    pub thread: u32,
    pub number: u32,
}

impl Room {
    /// Room for so many threads and so many records. The room for counts is only taken, and is written as far as an order
    /// needs it.
    pub fn open(alloc: Global, threads: u32, records: u32) -> Result<Room, NoMemory>
        ensures { IfOk result (λ room. room ≡ record { threads = threads; records = records; order = [] }) }
    {
        let records = records as usize;
        let nowhere = Place {
            thread: 0,
            index: 0,
        };
        Ok(Room {
            order: vec![in alloc; nowhere; records]?,
            placed: 0,
            next: vec![in alloc; 0; threads as usize]?,
            versions: vec![in alloc; 0; MOST_LOCATIONS]?,
            starts: vec![in alloc; 0; MOST_LOCATIONS + 1]?,
            left: Vec::with_capacity(alloc, MOST_LOCATIONS + 1 + MOST * records)?,
            tested: vec![in alloc; UNTESTED; threads as usize]?,
        })
    }

    /// The order that was found last.
    pub fn order(&self) -> &[Place]
        ensures { result.now ≡ self.now.order }
    {
        &self.order[..self.placed]
    }
}

/// Whether each footprint is well made, and of locations that a store may have.
pub fn are_well_made(records: &[Records]) -> bool
    ensures { IsTrue result ↔ AreWellMade (footprint_at (lists_of records.now)) }
{
    let mut footprint = Footprint::new();
    for list in records {
        if !all_well_made(list, &mut footprint) {
            return false;
        }
    }
    true
}

fn all_well_made(list: &Records, footprint: &mut Footprint) -> bool
    ensures { IsTrue result ↔ All (λ r. CanStand r.footprint) list.now.items }
{
    for i in 0..list.len() {
        list.fill(i, footprint);
        if !can_stand(footprint) {
            return false;
        }
    }
    true
}

fn can_stand(footprint: &Footprint) -> bool
    ensures { IsTrue result ↔ CanStand footprint.now }
{
    if !footprint.is_well_made() {
        return false;
    }
    footprint.is_below(MOST_LOCATIONS as u32)
}

/// Finds the canonical order of the records. It takes no memory. No clause speaks of its time: by its loops it goes with all
/// reads and puts, with the room's locations, and with threads times records.
///
/// # Errors
///
/// `Cycle`, exactly where a record is left and none is ready. Records that have a legal order never come to that.
pub fn arrange(records: &[Records], room: &mut Room) -> Result<(), Cycle>
    requires made { AreWellMade (footprint_at (lists_of records.now)) }
    requires threads { length records.now ≤ room.old.threads }
    requires records { records_in records.now ≤ room.old.records }
    ensures arranged { IfOk result (λ _. IsCanonical (footprint_at (lists_of records.now)) room.new.order) }
    ensures stuck { IfErr result (λ cycle. IsStuck (footprint_at (lists_of records.now)) cycle) }
    ensures never { HasLegalList (footprint_at (lists_of records.now)) → IsOk result }
    ensures threads { room.new.threads ≡ room.old.threads }
    ensures records { room.new.records ≡ room.old.records }
{
    let (placed, ended) = find_order(
        records,
        room.order.as_mut_slice(),
        room.next.as_mut_slice(),
        room.versions.as_mut_slice(),
        room.starts.as_mut_slice(),
        &mut room.left,
        room.tested.as_mut_slice(),
    );
    room.placed = placed;
    ended
}

// Finds the order, and says how many records stand in it.
fn find_order(
    records: &[Records],
    order: &mut [Place],
    next: &mut [u32],
    versions: &mut [u32],
    starts: &mut [usize],
    left: &mut Vec<usize>,
    tested: &mut [Tested],
) -> (usize, Result<(), Cycle>)
    requires threads { length records.now ≤ length next.old }
    requires tests { length records.now ≤ length tested.old }
    requires few { length next.old < 2 ^ 32 }
    requires made { AllWellMade (length versions.old) records.now }
    requires locations { length starts.old ≡ length versions.old + 1 }
    requires counts { length starts.old + MOST * length order.old ≤ vec_capacity left.old }
    requires bytes { vec_capacity left.old < 2 ^ 64 }
    requires records { records_in records.now ≤ length order.old }
    requires short { length order.old < 2 ^ 32 }
    ensures within { result.0 ≤ length order.new }
    ensures capacity { vec_capacity left.new ≡ vec_capacity left.old }
    ensures arranged { IfOk result.1 (λ _. IsCanonical (foot_at records.now) (take result.0 order.new)) }
    ensures stuck { IfErr result.1 (λ cycle. IsStuck (foot_at records.now) cycle) }
    ensures never { HasLegalList (foot_at records.now) → IsOk result.1 }
{
    clear_numbers(next);
    clear_numbers(versions);
    clear_tests(tested);
    count_records(records, starts, left);
    let placed = place_all(
        records,
        order,
        next,
        versions,
        starts,
        left.as_mut_slice(),
        tested,
    );
    match first_left(records, next) {
        None => (placed, Ok(())),
        Some(thread) => {
            let cycle = Cycle {
                thread: thread as u32 + 1,
                number: next[thread] + 1,
            };
            (placed, Err(cycle))
        }
    }
}
