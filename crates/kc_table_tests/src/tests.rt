ghost use Rattle.std.specs.Prelude.{◌≡◌, ◌<◌, ◌≤◌, [], false, All, IfOk, IfSome, Contains, length};
ghost use Rattle.kc_model.specs.Footprint.{Reads};
ghost use Rattle.kc_model.specs.declared.footprint.Seen.{Seen};
ghost use Rattle.kc_model.specs.declared.footprint.TheConstants.{MOST};
ghost use Rattle.kc_table_laws.specs.Tasks.{IsSameSeat, KnowsRead};
ghost use Rattle.kc_table_moves.specs.Views.{AreAll, Stepped};
ghost use Rattle.kc_machine.specs.Seats.{is_idle};

use crate::asserts::{equal, holds};
use arrayvec::ArrayVec;
use kc_machine_steps::{Task, Told, fill_lines};
use kc_machine_words::Mode;
use kc_model::{Footprint, Loc, OpenError, Put, Seen};
use kc_table::{KcSeat, KcTable, Wakes};
use std::process::Abort;
use std::test::Fail;
use std::thread;

pub(crate) const SUCCEEDED: Option<Told> = Some(Told::Succeeded { number: 1 });

pub(crate) const FAILED: Option<Told> = Some(Told::Failed { entry: 0 });

// What commits put at both locations, in place of 5 and 6.
pub(crate) const SEVEN_AND_EIGHT: [Option<u32>; 2] = [Some(7), Some(8)];

const NINES: [Option<u32>; 2] = [Some(9), Some(9)];

const SECOND_SEVEN: [Option<u32>; 2] = [None, Some(7)];

const FIRST_EIGHT: [Option<u32>; 2] = [Some(8), None];

pub(crate) fn crossed(entry: u32) -> Option<Told> {
    Some(Told::Crossed { entry })
}

// A table of these values, and the seats of two callers.
pub(crate) fn open_two(rt: &impl AllocGlobal, values: &[u32]) -> Option<(KcTable, KcSeat, KcSeat)>
    ensures { IfSome result (λ t. (t.1.of ≡ t.0) × (t.2.of ≡ t.0) × (t.0.origin.locations ≡ length values.now) × (t.1.number ≡ 0) × (t.2.number ≡ 1) × (t.0.origin.callers ≡ 2) × (t.2.seat.blocked ≡ false)) }
{
    let Ok((table, mut seats)) = KcTable::open(rt.alloc(), values, 2) else {
        return None;
    };
    let second = seats.pop()?;
    let first = seats.pop()?;
    Some((table, first, second))
}

// The same, where a test can't go on without them.
pub(crate) fn opened(rt: &(impl Abort + AllocGlobal), values: &[u32]) -> (KcTable, KcSeat, KcSeat)
    ensures { (result.1.of ≡ result.0) × (result.2.of ≡ result.0) × (result.0.origin.locations ≡ length values.now) × (result.1.number ≡ 0) × (result.2.number ≡ 1) × (result.0.origin.callers ≡ 2) × (result.2.seat.blocked ≡ false) }
{
    open_two(rt, values).expect(rt, "not opened")
}

// A step, and whom it signals.
pub(crate) fn step(table: &KcTable, seat: &mut KcSeat) -> u64
    requires table { seat.old.of ≡ table.now }
    requires busy { is_idle seat.old.seat.work ≡ false }
    ensures stepped { Stepped seat.old seat.new }
{
    let mut wakes = Wakes::none();
    table.step(seat, &mut wakes);
    wakes.bits()
}

// Steps until the task has ended, at most so many; how many were made. What it read it still knows.
pub(crate) fn steps(table: &KcTable, seat: &mut KcSeat, reads: &[Seen], most: u32) -> u32
    requires table { seat.old.of ≡ table.now }
    requires reads { All (KnowsRead seat.old) reads.now }
    ensures same { IsSameSeat seat.old seat.new }
    ensures reads { All (KnowsRead seat.new) reads.now }
{
    let mut wakes = Wakes::none();
    let made = steps_of(table, seat, reads, most, &mut wakes);
    wakes.bits();
    made
}

// The same; it notes whom they signal.
pub(crate) fn steps_of(
    table: &KcTable,
    seat: &mut KcSeat,
    reads: &[Seen],
    most: u32,
    wakes: &mut Wakes,
) -> u32
    requires table { seat.old.of ≡ table.now }
    requires reads { All (KnowsRead seat.old) reads.now }
    ensures same { IsSameSeat seat.old seat.new }
    ensures reads { All (KnowsRead seat.new) reads.now }
{
    for made in 0..most {
        if !seat.busy() {
            return made;
        }
        table.step(seat, wakes);
    }
    most
}

// What a look of the location tells.
pub(crate) fn look(table: &KcTable, seat: &mut KcSeat, reads: &[Seen], loc: Loc) -> Option<Seen>
    requires table { seat.old.of ≡ table.now }
    requires location { loc.0 < seat.old.of.origin.locations }
    requires reads { All (KnowsRead seat.old) reads.now }
    ensures same { IsSameSeat seat.old seat.new }
    ensures seen { IfSome result (KnowsRead seat.new) }
    ensures reads { All (KnowsRead seat.new) reads.now }
{
    if seat.busy() {
        return None;
    }
    seat.begin(&Task::Look(loc));
    step(table, seat);
    for _ in 0..1_000 {
        if !seat.busy() {
            break;
        }
        step(table, seat);
    }
    match seat.told() {
        Some(Told::Seen(seen)) => Some(seen),
        _ => None,
    }
}

// What looks of the first two locations tell.
pub(crate) fn look_both(table: &KcTable, seat: &mut KcSeat) -> Option<[Seen; 2]>
    requires table { seat.old.of ≡ table.now }
    requires locations { 1 < seat.old.of.origin.locations }
    ensures same { IsSameSeat seat.old seat.new }
    ensures seen { IfSome result (λ reads. All (KnowsRead seat.new) reads) }
{
    let first = look(table, seat, &[], Loc(0))?;
    let second = look(table, seat, &[first], Loc(1))?;
    Some([first, second])
}

// What a look of the location tells, where a test can't go on without it.
pub(crate) fn saw(rt: &impl Abort, table: &KcTable, seat: &mut KcSeat, loc: Loc) -> Seen
    requires table { seat.old.of ≡ table.now }
    requires location { loc.0 < seat.old.of.origin.locations }
    ensures same { IsSameSeat seat.old seat.new }
    ensures seen { KnowsRead seat.new result }
{
    look(table, seat, &[], loc).expect(rt, "nothing seen")
}

// The same, as the reads of a commit.
pub(crate) fn saw_one(rt: &impl Abort, table: &KcTable, seat: &mut KcSeat, loc: Loc) -> [Seen; 1]
    requires table { seat.old.of ≡ table.now }
    requires location { loc.0 < seat.old.of.origin.locations }
    ensures same { IsSameSeat seat.old seat.new }
    ensures seen { All (KnowsRead seat.new) result }
{
    [saw(rt, table, seat, loc)]
}

// The same of the first two locations.
pub(crate) fn saw_both(rt: &impl Abort, table: &KcTable, seat: &mut KcSeat) -> [Seen; 2]
    requires table { seat.old.of ≡ table.now }
    requires locations { 1 < seat.old.of.origin.locations }
    ensures same { IsSameSeat seat.old seat.new }
    ensures seen { All (KnowsRead seat.new) result }
{
    look_both(table, seat).expect(rt, "nothing seen")
}

// The footprint of these reads, and of puts where there is a value.
fn footprint(reads: &[Seen], puts: &[Option<u32>]) -> Footprint
    ensures among { (r : Seen) → Reads result r → Contains reads.now r }
    ensures few { length result.reads.items ≤ MOST }
{
    let mut footprint = Footprint::new();
    if footprint.reads.try_extend_from_slice(reads).is_err() {
        return footprint;
    }
    for i in 0..puts.len().min(reads.len()) {
        if let Some(after) = puts[i] {
            let _ = footprint.puts.try_push(Put {
                loc: reads[i].loc,
                version: reads[i].version,
                after,
            });
        }
    }
    footprint
}

// Begins a commit of these reads and puts; false where a task runs, or it is none.
pub(crate) fn begin(seat: &mut KcSeat, mode: Mode, reads: &[Seen], puts: &[Option<u32>]) -> bool
    requires reads { All (KnowsRead seat.old) reads.now }
    ensures same { IsSameSeat seat.old seat.new }
    ensures reads { All (KnowsRead seat.new) reads.now }
{
    let footprint = footprint(reads, puts);
    if seat.busy() || !footprint.is_well_made() {
        return false;
    }
    seat.begin(&Task::Commit { footprint, mode });
    true
}

// Begins a commit of these reads and puts, and makes at most so many of its steps: how many were made.
pub(crate) fn go(
    rt: &impl Abort,
    table: &KcTable,
    seat: &mut KcSeat,
    mode: Mode,
    reads: &[Seen],
    puts: &[Option<u32>],
    most: u32,
) -> u32
    requires table { seat.old.of ≡ table.now }
    requires reads { All (KnowsRead seat.old) reads.now }
    ensures same { IsSameSeat seat.old seat.new }
    ensures reads { All (KnowsRead seat.new) reads.now }
{
    holds(rt, begin(seat, mode, reads, puts));
    steps(table, seat, reads, most)
}

// Steps until the task has ended: in how many steps, and what it is told.
pub(crate) fn end(table: &KcTable, seat: &mut KcSeat, reads: &[Seen]) -> (u32, Option<Told>)
    requires table { seat.old.of ≡ table.now }
    requires reads { All (KnowsRead seat.old) reads.now }
    ensures same { IsSameSeat seat.old seat.new }
    ensures reads { All (KnowsRead seat.new) reads.now }
{
    let made = steps(table, seat, reads, 100);
    (made, seat.told())
}

// Steps a commit of these reads and puts to its end: in how many steps, and what it is told.
fn commit(
    rt: &impl Abort,
    table: &KcTable,
    seat: &mut KcSeat,
    mode: Mode,
    reads: &[Seen],
    puts: &[Option<u32>],
) -> (u32, Option<Told>)
    requires table { seat.old.of ≡ table.now }
    requires reads { All (KnowsRead seat.old) reads.now }
    ensures same { IsSameSeat seat.old seat.new }
    ensures reads { All (KnowsRead seat.new) reads.now }
{
    holds(rt, begin(seat, mode, reads, puts));
    end(table, seat, reads)
}

// Runs a commit of these reads and puts in one call; false where a task runs, or it is none.
pub(crate) fn run(
    table: &KcTable,
    seat: &mut KcSeat,
    mode: Mode,
    reads: &[Seen],
    puts: &[Option<u32>],
) -> bool
    requires table { seat.old.of ≡ table.now }
    requires reads { All (KnowsRead seat.old) reads.now }
    ensures same { IsSameSeat seat.old seat.new }
{
    let footprint = footprint(reads, puts);
    if seat.busy() || !footprint.is_well_made() {
        return false;
    }
    let mut lines = ArrayVec::new();
    fill_lines(&mut lines, &footprint);
    table.commit(seat, &footprint, mode, lines.as_slice());
    true
}

// What a look in one call tells; None where a reference stands, or a task runs.
pub(crate) fn see(table: &KcTable, seat: &mut KcSeat, loc: Loc) -> Option<Seen>
    requires table { seat.old.of ≡ table.now }
    requires location { loc.0 < seat.old.of.origin.locations }
    ensures same { IsSameSeat seat.old seat.new }
{
    if seat.busy() {
        return None;
    }
    table.look(seat, loc)
}

// Steps until the seat owns a descriptor.
fn take(table: &KcTable, seat: &mut KcSeat) -> Option<(u32, u64)>
    requires table { seat.old.of ≡ table.now }
    ensures same { IsSameSeat seat.old seat.new }
{
    for _ in 0..20 {
        if seat.own().is_some() || !seat.busy() {
            break;
        }
        step(table, seat);
    }
    seat.own()
}

// Begins to hang on a read; false where a task runs.
pub(crate) fn hang(seat: &mut KcSeat, read: Seen) -> bool
    requires free { seat.old.seat.blocked ≡ false }
    requires location { read.loc.0 < seat.old.of.origin.locations }
    ensures same { IsSameSeat seat.old seat.new }
{
    let mut reads = ArrayVec::new();
    reads.push(read);
    if seat.busy() {
        return false;
    }
    seat.begin(&Task::Hang { reads });
    true
}

// Begins to leave a read; false where a task runs.
fn leave(seat: &mut KcSeat, read: Seen) -> bool
    requires location { read.loc.0 < seat.old.of.origin.locations }
    ensures same { IsSameSeat seat.old seat.new }
{
    let mut reads = ArrayVec::new();
    reads.push(read);
    if seat.busy() {
        return false;
    }
    seat.begin(&Task::Leave { reads });
    true
}

// Both seats, where no task runs.
pub(crate) fn together(
    rt: &impl AllocGlobal,
    table: &KcTable,
    first: KcSeat,
    second: KcSeat,
) -> Result<Vec<KcSeat>, Fail>
    requires table { (first.of ≡ table.now) × (second.of ≡ table.now) × (table.now.origin.callers ≡ 2) }
    requires numbers { (first.number ≡ 0) × (second.number ≡ 1) }
    ensures { IfOk result (λ seats. AreAll table.now seats.items) }
{
    if first.busy() || second.busy() {
        return Err(Fail::from("a task runs"));
    }
    Ok(Vec::from_array(rt.alloc(), [first, second])?)
}

// The same, the second one first.
fn backwards(
    rt: &HostRuntime,
    table: &KcTable,
    first: KcSeat,
    second: KcSeat,
) -> Result<Vec<KcSeat>, Fail>
    requires table { (first.of ≡ table.now) × (second.of ≡ table.now) × (table.now.origin.callers ≡ 2) }
    requires numbers { (first.number ≡ 0) × (second.number ≡ 1) }
    ensures { IfOk result (λ seats. AreAll table.now seats.items) }
{
    if first.busy() || second.busy() {
        return Err(Fail::from("a task runs"));
    }
    Ok(Vec::from_array(rt.alloc(), [second, first])?)
}

fn zeros(rt: &HostRuntime, count: usize) -> Result<Vec<u32>, Fail> {
    Ok(vec![in rt.alloc(); 0u32; count]?)
}

// Why no table of these values and callers is opened.
fn refusal(rt: &HostRuntime, values: &[u32], callers: u32) -> Option<OpenError> {
    KcTable::open(rt.alloc(), values, callers).err()
}

// The same of a table of one location that opens at a version.
fn refusal_at(rt: &HostRuntime, callers: u32) -> Option<OpenError> {
    KcTable::open_at(rt.alloc(), &[5], &[0], callers, 0).err()
}

#[test]
fn too_many_locations_and_callers_are_refused(rt: HostRuntime) -> Result<(), Fail> {
    let too_many = Some(OpenError::TooManyCallers);
    let many = zeros(&rt, 65_537)?;
    equal(&rt, refusal(&rt, &many, 1), Some(OpenError::TooManyLocs));
    for callers in [0, 65] {
        let refused = (refusal(&rt, &[5], callers), refusal_at(&rt, callers));
        equal(&rt, refused, (too_many, too_many));
    }
    equal(&rt, refusal(&rt, &[5, 6, 7], 2), None);
    let opened = KcTable::open_at(rt.alloc(), &[5, 6, 7], &[0, 0, 0], 2, 0);
    holds(&rt, opened.is_ok());
    Ok(())
}

fn shown(loc: u32, version: u32, value: u32) -> Option<Seen> {
    Some(Seen {
        loc: Loc(loc),
        version,
        value,
    })
}

// What stands at the first three locations when all seats have come back.
fn stand(rt: &HostRuntime, table: KcTable, seats: Vec<KcSeat>) -> Result<[Option<Seen>; 3], Fail>
    requires { AreAll table seats.items }
{
    let Ok(closed) = table.close(rt.alloc(), seats) else {
        return Err(Fail::from("not closed"));
    };
    Ok([
        closed.seen(Loc(0)),
        closed.seen(Loc(1)),
        closed.seen(Loc(2)),
    ])
}

#[test]
fn an_owner_that_stopped_is_helped(rt: HostRuntime) -> Result<(), Fail> {
    let (table, mut a, mut b) = opened(&rt, &[5, 6]);
    let mine = saw_both(&rt, &table, &mut a);
    let theirs = saw_both(&rt, &table, &mut b);
    let made = go(&rt, &table, &mut a, Mode::All, &mine, &SEVEN_AND_EIGHT, 9);
    equal(&rt, made, 9);
    let ended = commit(&rt, &table, &mut b, Mode::All, &theirs, &NINES);
    equal(&rt, ended, (27, FAILED));
    equal(&rt, end(&table, &mut a, &mine), (7, SUCCEEDED));
    let seats = together(&rt, &table, a, b)?;
    let stood = stand(&rt, table, seats)?;
    equal(&rt, stood, [shown(0, 1, 7), shown(1, 1, 8), None]);
    Ok(())
}

// Begins a put at the first location and steps until the seat owns a descriptor: the version and the value that stood there,
// and the descriptor.
fn put(
    rt: &impl Abort,
    table: &KcTable,
    seat: &mut KcSeat,
    after: u32,
) -> ((u32, u32), Option<(u32, u64)>)
    requires table { seat.old.of ≡ table.now }
    requires location { 0 < seat.old.of.origin.locations }
    ensures same { IsSameSeat seat.old seat.new }
{
    let [seen] = saw_one(rt, table, seat, Loc(0));
    holds(rt, begin(seat, Mode::All, &[seen], &[Some(after)]));
    ((seen.version, seen.value), take(table, seat))
}

#[test]
fn a_helper_that_stopped_holds_the_descriptor(rt: HostRuntime) {
    let (table, mut a, mut b) = opened(&rt, &[5, 6]);
    let mine = saw_both(&rt, &table, &mut a);
    let theirs = saw_both(&rt, &table, &mut b);
    let made = go(&rt, &table, &mut a, Mode::All, &mine, &SEVEN_AND_EIGHT, 9);
    equal(&rt, made, 9);
    let made = go(&rt, &table, &mut b, Mode::All, &theirs, &NINES, 17);
    equal(&rt, made, 17);
    equal(&rt, end(&table, &mut a, &mine).1, SUCCEEDED);
    let taken = put(&rt, &table, &mut a, 1);
    equal(&rt, taken, ((1, 7), Some((1, 1))));
    steps(&table, &mut a, &[], 100);
    equal(&rt, end(&table, &mut b, &theirs).1, FAILED);
    equal(&rt, put(&rt, &table, &mut a, 2).1, Some((0, 2)));
}

#[test]
fn a_comparison_comes_before_the_put_that_it_did_not_see(rt: HostRuntime) {
    let (table, mut a, mut b) = opened(&rt, &[5, 6]);
    let mine = saw_both(&rt, &table, &mut a);
    let five = saw_one(&rt, &table, &mut b, Loc(0));
    let made = go(&rt, &table, &mut a, Mode::Light, &mine, &SECOND_SEVEN, 10);
    equal(&rt, made, 10);
    let ended = commit(&rt, &table, &mut b, Mode::Light, &five, &[Some(8)]);
    equal(&rt, ended, (11, SUCCEEDED));
    equal(&rt, end(&table, &mut a, &mine), (4, SUCCEEDED));
}

#[test]
fn commits_that_compare_what_the_other_puts_are_crossed(rt: HostRuntime) {
    let (table, mut a, mut b) = opened(&rt, &[5, 6]);
    let mine = saw_both(&rt, &table, &mut a);
    let theirs = saw_both(&rt, &table, &mut b);
    let made = go(&rt, &table, &mut a, Mode::Light, &mine, &SECOND_SEVEN, 10);
    equal(&rt, made, 10);
    let ended = commit(&rt, &table, &mut b, Mode::Light, &theirs, &FIRST_EIGHT);
    equal(&rt, ended, (16, crossed(1)));
    let ended = commit(&rt, &table, &mut b, Mode::All, &theirs, &FIRST_EIGHT);
    equal(&rt, ended, (31, Some(Told::Succeeded { number: 2 })));
    equal(&rt, end(&table, &mut a, &mine).1, crossed(0));
    let (_, told) = commit(&rt, &table, &mut a, Mode::All, &mine, &SECOND_SEVEN);
    equal(&rt, told, FAILED);
}

#[test]
fn a_put_wakes_who_hangs_on_it(rt: HostRuntime) {
    let (table, mut a, mut b) = opened(&rt, &[0]);
    let zero = Seen {
        loc: Loc(0),
        version: 0,
        value: 0,
    };
    holds(&rt, hang(&mut b, zero));
    equal(&rt, end(&table, &mut b, &[]), (2, Some(Told::Hung)));
    holds(&rt, !table.signalled(&mut b));
    let seen = saw_one(&rt, &table, &mut a, Loc(0));
    holds(&rt, begin(&mut a, Mode::Light, &seen, &[Some(1)]));
    let mut wakes = Wakes::none();
    steps_of(&table, &mut a, &seen, 100, &mut wakes);
    equal(&rt, a.told(), SUCCEEDED);
    holds(&rt, table.signalled(&mut b));
    table.wake(wakes);
    table.park(&rt, &mut b);
    holds(&rt, leave(&mut b, zero));
    equal(&rt, end(&table, &mut b, &[]), (2, Some(Told::Free)));
    holds(&rt, !table.signalled(&mut b));
}

#[test]
fn a_note_passes_on_what_a_seat_knows(rt: HostRuntime) {
    let (table, mut a, mut b) = opened(&rt, &[5]);
    let seen = saw_one(&rt, &table, &mut a, Loc(0));
    commit(&rt, &table, &mut a, Mode::Light, &seen, &[Some(6)]);
    let note = table.split(&mut a);
    table.join(&mut b, note);
    equal(&rt, b.told(), None);
}

// Raises the first location, so often, in both modes in turn.
fn raise(table: &KcTable, mut seat: KcSeat, times: u32) -> KcSeat
    requires table { (seat.of ≡ table.now) × (0 < table.now.origin.locations) }
    ensures same { IsSameSeat seat result }
{
    let mut done = 0u32;
    for _ in 0..1_000_000 {
        if done == times {
            break;
        }
        if let Some(seen) = look(table, &mut seat, &[], Loc(0)) {
            let mode = if done % 2 == 0 {
                Mode::All
            } else {
                Mode::Light
            };
            begin(
                &mut seat,
                mode,
                &[seen],
                &[Some(seen.value.wrapping_add(1))],
            );
        }
        steps(table, &mut seat, &[], 1_000_000);
        if let Some(Told::Succeeded { number: _ }) = seat.told() {
            done = done.saturating_add(1);
        }
    }
    seat
}

#[test]
fn two_threads_raise_one_location(rt: HostRuntime) -> Result<(), Fail> {
    let (table, a, b) = opened(&rt, &[0]);
    let shared = &table;
    let (mut a, b) = thread::join(
        &rt,
        move || raise(shared, a, 2_000),
        move || raise(shared, b, 2_000),
    );
    let seen = saw_one(&rt, &table, &mut a, Loc(0));
    equal(&rt, (seen[0].version, seen[0].value), (4_000, 4_000));
    let seats = together(&rt, &table, a, b)?;
    let _past = table.finish(seats);
    Ok(())
}

#[test]
fn a_commit_in_one_call_makes_its_steps(rt: HostRuntime) {
    for mode in [Mode::Light, Mode::All] {
        let (table, mut a, mut b) = opened(&rt, &[5, 6]);
        let mine = saw_one(&rt, &table, &mut a, Loc(0));
        let theirs = saw_one(&rt, &table, &mut b, Loc(0));
        equal(
            &rt,
            (
                run(&table, &mut a, mode, &mine, &[Some(7)]),
                a.steps(),
                a.told(),
            ),
            (true, 12, SUCCEEDED),
        );
        // One that fails makes its steps too, and has no wake.
        equal(
            &rt,
            (
                run(&table, &mut b, mode, &theirs, &[Some(9)]),
                b.steps(),
                b.told(),
            ),
            (true, 11, FAILED),
        );
        let seven = Seen {
            loc: Loc(0),
            version: 1,
            value: 7,
        };
        equal(&rt, see(&table, &mut b, Loc(0)), Some(seven));
        equal(&rt, b.told(), Some(Told::Seen(seven)));
    }
}

#[test]
fn a_commit_in_one_call_stops_at_anothers_reference(rt: HostRuntime) {
    let (table, mut a, mut b) = opened(&rt, &[5, 6]);
    let mine = saw_both(&rt, &table, &mut a);
    let theirs = saw_one(&rt, &table, &mut b, Loc(0));
    let made = go(&rt, &table, &mut a, Mode::All, &mine, &SEVEN_AND_EIGHT, 9);
    equal(&rt, made, 9);
    holds(&rt, run(&table, &mut b, Mode::Light, &theirs, &[Some(9)]));
    holds(&rt, b.busy());
    equal(&rt, end(&table, &mut b, &[]).1, FAILED);
    equal(&rt, end(&table, &mut a, &mine).1, SUCCEEDED);
}

#[test]
fn seats_come_back_in_any_order(rt: HostRuntime) -> Result<(), Fail> {
    let (table, mut a, b) = opened(&rt, &[5, 6]);
    let mine = saw_both(&rt, &table, &mut a);
    holds(&rt, run(&table, &mut a, Mode::All, &mine, &[Some(7), None]));
    let seats = backwards(&rt, &table, a, b)?;
    let stood = stand(&rt, table, seats)?;
    equal(&rt, stood, [shown(0, 1, 7), shown(1, 0, 6), None]);
    Ok(())
}
