use crate::asserts::{equal, equal_at, holds};
use arrayvec::ArrayVec;
use kc_machine::*;
use kc_machine_steps::{Pick, first_of, from_install, next_line, second_of};
use kc_machine_words::{Access, First, Found, Handle, Mode, Second, Touch};
use kc_model::{Footprint, Line, Loc, MOST, OpenError, Put, Seen, Word};
use std::process::Abort;
use std::test::Fail;

fn seen(loc: u32, version: u32, value: u32) -> Seen {
    Seen {
        loc: Loc(loc),
        version,
        value,
    }
}

// Reads are a location, a version and a value; puts a location, a version and a value after.
fn commit(mode: Mode, reads: &[(u32, u32, u32)], puts: &[(u32, u32, u32)]) -> Task {
    let mut footprint = Footprint::new();
    for (loc, version, value) in reads {
        let _ = footprint.reads.try_push(seen(*loc, *version, *value));
    }
    for (loc, version, after) in puts {
        let _ = footprint.puts.try_push(Put {
            loc: Loc(*loc),
            version: *version,
            after: *after,
        });
    }
    Task::Commit { footprint, mode }
}

// Puts 1 in place of 0 at so many locations, from the first on.
fn first_puts(count: u32) -> Task {
    let mut footprint = Footprint::new();
    for i in 0..count {
        let _ = footprint.reads.try_push(seen(i, 0, 0));
        let _ = footprint.puts.try_push(Put {
            loc: Loc(i),
            version: 0,
            after: 1,
        });
    }
    Task::Commit {
        footprint,
        mode: Mode::All,
    }
}

// Puts these two values in place of 5 and 6.
fn two(mode: Mode, first: u32, second: u32) -> Task {
    commit(
        mode,
        &[(0, 0, 5), (1, 0, 6)],
        &[(0, 0, first), (1, 0, second)],
    )
}

// Puts a value at the first location.
fn put(mode: Mode, version: u32, value: u32, after: u32) -> Task {
    commit(mode, &[(0, version, value)], &[(0, version, after)])
}

fn swap(loc: u32, version: u32, value: u32, after: u32) -> Task {
    Task::Swap {
        seen: seen(loc, version, value),
        after,
    }
}

fn hang(version: u32) -> ArrayVec<Seen, MOST> {
    let mut reads = ArrayVec::new();
    let _ = reads.try_push(seen(0, version, version));
    reads
}

fn open(rt: &(impl Abort + AllocGlobal), values: &[u32], callers: u32) -> Machine {
    Machine::open(rt.alloc(), values, callers).expect(rt, "not opened")
}

fn begin(machine: &mut Machine, seat: u32, task: Task) {
    machine.event(Event::Begin { seat, task });
}

fn step(machine: &mut Machine, seat: u32, count: u32) {
    for _ in 0..count {
        machine.event(Event::Step { seat });
    }
}

fn told(machine: &Machine, seat: u32) -> Option<Told> {
    if seat < machine.callers() {
        machine.seat(seat).told()
    } else {
        None
    }
}

fn own(machine: &Machine, seat: u32) -> Option<(u32, u64)> {
    if seat < machine.callers() {
        machine.seat(seat).own()
    } else {
        None
    }
}

fn calls(machine: &Machine, seat: u32) -> u64 {
    if seat < machine.callers() {
        machine.seat(seat).calls()
    } else {
        0
    }
}

fn steps(machine: &Machine, seat: u32) -> u64 {
    if seat < machine.callers() {
        machine.seat(seat).steps()
    } else {
        0
    }
}

fn access(machine: &Machine, seat: u32) -> Access {
    if seat < machine.callers() {
        machine.seat(seat).access()
    } else {
        Access::Nothing
    }
}

// The steps that the seat makes alone until it is told.
fn finish(machine: &mut Machine, seat: u32) -> u64 {
    let before = steps(machine, seat);
    for _ in 0..10_000 {
        if told(machine, seat).is_none() {
            machine.event(Event::Step { seat });
        }
    }
    steps(machine, seat).saturating_sub(before)
}

// The same, and what the seat is told then.
fn end(machine: &mut Machine, seat: u32) -> (u64, Option<Told>) {
    let made = finish(machine, seat);
    (made, told(machine, seat))
}

// What the location stands for, as a look of this seat tells it.
fn look(machine: &mut Machine, seat: u32, loc: u32) -> Option<Told> {
    begin(machine, seat, Task::Look(Loc(loc)));
    finish(machine, seat);
    told(machine, seat)
}

const WON: Option<Told> = Some(Told::Succeeded { number: 1 });

const LOST: Option<Told> = Some(Told::Failed { entry: 0 });

fn won(number: u64) -> Option<Told> {
    Some(Told::Succeeded { number })
}

fn crossed(entry: u32) -> Option<Told> {
    Some(Told::Crossed { entry })
}

// What a look tells of a location.
fn shown(loc: u32, version: u32, value: u32) -> Option<Told> {
    Some(Told::Seen(seen(loc, version, value)))
}

// Why no machine of these values and callers is opened.
fn refusal(rt: &HostRuntime, values: &[u32], callers: u32) -> Option<OpenError> {
    Machine::open(rt.alloc(), values, callers).err()
}

// Whether the first seat's next step signals the second one.
fn signals(machine: &Machine) -> bool {
    matches!(access(machine, 0), Access::Signal(1, true))
}

fn zeros(rt: &HostRuntime, count: usize) -> Result<Vec<u32>, Fail> {
    Ok(vec![in rt.alloc(); 0u32; count]?)
}

#[test]
fn too_many_locations_and_callers_are_refused(rt: HostRuntime) -> Result<(), Fail> {
    let many = zeros(&rt, 65_537)?;
    let enough = zeros(&rt, 65_536)?;
    equal(&rt, refusal(&rt, &many, 1), Some(OpenError::TooManyLocs));
    equal(&rt, refusal(&rt, &enough, 64), None);
    equal(&rt, refusal(&rt, &[5], 0), Some(OpenError::TooManyCallers));
    equal(&rt, refusal(&rt, &[5], 65), Some(OpenError::TooManyCallers));
    Ok(())
}

#[test]
fn a_stopped_owner_is_helped(rt: HostRuntime) {
    let mut machine = open(&rt, &[5, 6], 2);
    begin(&mut machine, 0, two(Mode::All, 7, 8));
    step(&mut machine, 0, 9);
    begin(&mut machine, 1, two(Mode::All, 9, 9));
    equal(&rt, end(&mut machine, 1), (27, LOST));
    equal(&rt, end(&mut machine, 0), (7, WON));
    equal(&rt, look(&mut machine, 0, 0), shown(0, 1, 7));
    equal(&rt, look(&mut machine, 1, 1), shown(1, 1, 8));
}

// Owner n of sixteen stands behind its first install, at location n; the next one holds the location that it installs then.
#[test]
fn a_chain_of_sixteen_stopped_owners_is_gone_through(rt: HostRuntime) {
    let mut machine = open(&rt, &[5; 18], 17);
    for n in 1..17u32 {
        let owner = commit(
            Mode::All,
            &[(n, 0, 5), (n + 1, 0, 5)],
            &[(n, 0, 6), (n + 1, 0, 6)],
        );
        begin(&mut machine, n, owner);
        step(&mut machine, n, 9);
    }
    let last = commit(Mode::All, &[(1, 0, 5)], &[(1, 0, 9)]);
    begin(&mut machine, 0, last);
    let count = finish(&mut machine, 0);
    equal(&rt, told(&machine, 0), WON);
    equal(&rt, count, 1555);
    holds(&rt, count as usize <= 18 * 18 * (4 * MOST * MOST));
}

// Whether the second seat's next step installs the second line of the first commit of descriptor 0 at its location.
fn installs(machine: &Machine) -> bool {
    matches!(
        access(machine, 1),
        Access::Location(
            Loc(1),
            Touch::CompareExchange {
                old: _,
                new: Word::Ref {
                    generation: 1,
                    descriptor: 0,
                    entry: 1,
                },
            },
        )
    )
}

#[test]
fn a_held_descriptor_is_not_taken(rt: HostRuntime) {
    let mut machine = open(&rt, &[5, 6], 2);
    begin(&mut machine, 0, two(Mode::All, 7, 8));
    step(&mut machine, 0, 9);
    begin(&mut machine, 1, two(Mode::All, 9, 9));
    step(&mut machine, 1, 17);
    holds(&rt, installs(&machine));
    finish(&mut machine, 0);
    equal(&rt, told(&machine, 0), WON);
    begin(&mut machine, 0, put(Mode::All, 1, 7, 1));
    step(&mut machine, 0, 3);
    equal(&rt, own(&machine, 0), Some((1, 1)));
    finish(&mut machine, 0);
    finish(&mut machine, 1);
    begin(&mut machine, 0, put(Mode::All, 2, 1, 3));
    step(&mut machine, 0, 2);
    equal(&rt, own(&machine, 0), Some((0, 2)));
}

// Whether the first seat's next step decides a commit.
fn decides(machine: &Machine) -> bool {
    matches!(
        access(machine, 0),
        Access::Status(_, Touch::CompareExchange { old: _, new: _ })
    )
}

#[test]
fn a_checked_comparison_is_not_seen_by_others(rt: HostRuntime) {
    let mut machine = open(&rt, &[5, 6], 2);
    let reads = [(0, 0, 5), (1, 0, 6)];
    begin(&mut machine, 0, commit(Mode::Light, &reads, &[(1, 0, 7)]));
    step(&mut machine, 0, 10);
    holds(&rt, decides(&machine));
    begin(&mut machine, 1, put(Mode::Light, 0, 5, 8));
    equal(&rt, end(&mut machine, 1), (11, WON));
    equal(&rt, end(&mut machine, 0), (4, WON));
}

#[test]
fn commits_that_cross_are_told_so_and_go_on_in_all(rt: HostRuntime) {
    let mut machine = open(&rt, &[5, 6], 2);
    let reads = [(0, 0, 5), (1, 0, 6)];
    begin(&mut machine, 0, commit(Mode::Light, &reads, &[(1, 0, 7)]));
    step(&mut machine, 0, 10);
    begin(&mut machine, 1, commit(Mode::Light, &reads, &[(0, 0, 8)]));
    equal(&rt, end(&mut machine, 1), (16, crossed(1)));
    begin(&mut machine, 1, commit(Mode::All, &reads, &[(0, 0, 8)]));
    equal(&rt, end(&mut machine, 1), (31, won(2)));
    finish(&mut machine, 0);
    equal(&rt, told(&machine, 0), crossed(0));
    begin(&mut machine, 0, commit(Mode::All, &reads, &[(1, 0, 7)]));
    finish(&mut machine, 0);
    equal(&rt, told(&machine, 0), LOST);
}

#[test]
fn a_hang_is_woken_by_a_put(rt: HostRuntime) {
    let mut machine = open(&rt, &[0], 2);
    begin(&mut machine, 1, Task::Hang { reads: hang(0) });
    equal(&rt, end(&mut machine, 1), (2, Some(Told::Hung)));
    begin(&mut machine, 0, put(Mode::Light, 0, 0, 1));
    step(&mut machine, 0, 10);
    holds(&rt, signals(&machine));
    equal(&rt, finish(&mut machine, 0), 2);
    begin(&mut machine, 1, Task::Hang { reads: hang(0) });
    equal(&rt, told(&machine, 1), Some(Told::Hung));
    begin(&mut machine, 1, Task::Leave { reads: hang(0) });
    equal(&rt, end(&mut machine, 1), (2, Some(Told::Free)));
    begin(&mut machine, 1, Task::Hang { reads: hang(0) });
    equal(
        &rt,
        end(&mut machine, 1),
        (3, Some(Told::Changed { entry: 0 })),
    );
}

#[test]
fn a_swap_that_finds_what_it_saw_puts_the_next_version(rt: HostRuntime) {
    let mut machine = open(&rt, &[5, 6], 2);
    begin(&mut machine, 0, swap(1, 0, 6, 9));
    equal(&rt, end(&mut machine, 0), (2, WON));
    equal(&rt, calls(&machine, 0), 1);
    equal(&rt, look(&mut machine, 1, 1), shown(1, 1, 9));
    begin(&mut machine, 0, swap(1, 1, 9, 9));
    equal(&rt, end(&mut machine, 0), (2, won(2)));
    equal(&rt, calls(&machine, 0), 2);
    equal(&rt, look(&mut machine, 1, 1), shown(1, 2, 9));
    equal(&rt, look(&mut machine, 1, 0), shown(0, 0, 5));
}

#[test]
fn a_swap_that_finds_another_value_or_version_changes_nothing(rt: HostRuntime) {
    for row in [(0, 6), (1, 5), (1, 6)] {
        let (version, value) = row;
        let mut machine = open(&rt, &[5], 2);
        begin(&mut machine, 0, swap(0, version, value, 9));
        equal_at(&rt, row, end(&mut machine, 0), (1, LOST));
        equal_at(&rt, row, calls(&machine, 0), 0);
        equal_at(&rt, row, look(&mut machine, 1, 0), shown(0, 0, 5));
    }
}

// After 9 to 11 steps the owner has installed its first line and not yet released it.
#[test]
fn a_swap_that_finds_a_reference_is_crossed(rt: HostRuntime) {
    for mode in [Mode::All, Mode::Light] {
        for stop in 9..12 {
            let mut machine = open(&rt, &[5, 6], 2);
            begin(&mut machine, 0, two(mode, 7, 8));
            step(&mut machine, 0, stop);
            begin(&mut machine, 1, swap(0, 0, 5, 9));
            equal_at(&rt, stop, end(&mut machine, 1), (1, crossed(0)));
            equal_at(&rt, stop, calls(&machine, 1), 0);
            finish(&mut machine, 0);
            equal_at(&rt, stop, told(&machine, 0), WON);
            equal_at(&rt, stop, look(&mut machine, 1, 0), shown(0, 1, 7));
        }
    }
}

// Whether or not it is halted behind its exchange, it signals seat 1, which hangs there, and no other.
#[test]
fn a_swap_wakes_who_hangs_on_its_location(rt: HostRuntime) {
    for halts in [false, true] {
        let mut machine = open(&rt, &[0], 3);
        begin(&mut machine, 1, Task::Hang { reads: hang(0) });
        finish(&mut machine, 1);
        equal(&rt, told(&machine, 1), Some(Told::Hung));
        begin(&mut machine, 0, swap(0, 0, 0, 1));
        step(&mut machine, 0, 1);
        if halts {
            machine.event(Event::Halt { seat: 0 });
        }
        step(&mut machine, 0, 1);
        holds(&rt, signals(&machine));
        equal(&rt, end(&mut machine, 0), (1, WON));
    }
}

// The swap is halted after so many steps: the steps that it still makes, and whether it succeeds.
#[test]
fn a_swap_halted_before_its_exchange_ends_at_once(rt: HostRuntime) {
    for (stop, left, succeeds) in [(0, 0, false), (1, 1, true), (2, 0, true)] {
        let mut machine = open(&rt, &[5], 2);
        begin(&mut machine, 0, swap(0, 0, 5, 9));
        step(&mut machine, 0, stop);
        machine.event(Event::Halt { seat: 0 });
        let (wanted, made, stands) = if succeeds {
            (WON, 1, shown(0, 1, 9))
        } else {
            (Some(Told::Halted), 0, shown(0, 0, 5))
        };
        equal_at(&rt, stop, end(&mut machine, 0), (left, wanted));
        holds(&rt, machine.callers() > 0 && machine.seat(0).is_idle());
        equal_at(&rt, stop, calls(&machine, 0), made);
        equal_at(&rt, stop, look(&mut machine, 1, 0), stands);
    }
}

// Where the owner stops, the steps of the other and those that the owner still makes.
const STOPS: [(u32, u64, u64); 17] = [
    (0, 16, 13),
    (1, 16, 12),
    (2, 16, 11),
    (3, 16, 10),
    (4, 16, 9),
    (5, 16, 8),
    (6, 16, 7),
    (7, 16, 6),
    (8, 16, 5),
    (9, 27, 7),
    (10, 27, 6),
    (11, 20, 5),
    (12, 13, 4),
    (13, 13, 3),
    (14, 13, 2),
    (15, 13, 1),
    (16, 13, 0),
];

// The owner stops after so many steps; the other then runs, and then the owner.
#[test]
fn wherever_an_owner_stops_the_other_goes_on(rt: HostRuntime) {
    for &(stop, others, left) in &STOPS {
        let mut machine = open(&rt, &[5, 6], 2);
        begin(&mut machine, 0, two(Mode::All, 7, 8));
        step(&mut machine, 0, stop);
        begin(&mut machine, 1, two(Mode::All, 9, 9));
        equal_at(&rt, stop, finish(&mut machine, 1), others);
        equal_at(&rt, stop, finish(&mut machine, 0), left);
        let answers = (told(&machine, 0), told(&machine, 1));
        let wanted = if stop <= 8 { (LOST, WON) } else { (WON, LOST) };
        equal_at(&rt, stop, answers, wanted);
    }
}

// Where the owner is halted, the steps that it still makes, and whether it succeeds.
const HALTS: [(u32, u64, bool); 17] = [
    (0, 0, false),
    (1, 0, false),
    (2, 1, false),
    (3, 1, false),
    (4, 1, false),
    (5, 1, false),
    (6, 1, false),
    (7, 1, false),
    (8, 4, false),
    (9, 4, false),
    (10, 4, false),
    (11, 5, true),
    (12, 4, true),
    (13, 3, true),
    (14, 2, true),
    (15, 1, true),
    (16, 0, true),
];

#[test]
fn wherever_an_owner_is_halted_it_ends_soon(rt: HostRuntime) {
    for &(stop, left, succeeds) in &HALTS {
        let mut machine = open(&rt, &[5, 6], 2);
        begin(&mut machine, 0, two(Mode::All, 7, 8));
        step(&mut machine, 0, stop);
        machine.event(Event::Halt { seat: 0 });
        let (wanted, stands) = if succeeds {
            (WON, shown(0, 1, 7))
        } else {
            (Some(Told::Halted), shown(0, 0, 5))
        };
        equal_at(&rt, stop, end(&mut machine, 0), (left, wanted));
        equal_at(&rt, stop, look(&mut machine, 1, 0), stands);
    }
}

// The compare-exchanges from the start to the decision.
fn exchanges(machine: &mut Machine) -> u32 {
    let mut count = 0u32;
    let mut decided = 0;
    for _ in 0..10_000 {
        match access(machine, 0) {
            Access::Status(_, Touch::Store(_)) => count = 0,
            Access::Location(_, Touch::CompareExchange { old: _, new: _ }) => {
                count = count.saturating_add(1);
            }
            Access::Status(_, Touch::CompareExchange { old: _, new: _ }) => {
                decided = count.saturating_add(1);
            }
            _ => {}
        }
        machine.event(Event::Step { seat: 0 });
    }
    decided
}

#[test]
fn alone_a_commit_of_puts_makes_one_exchange_more_than_it_has_puts(rt: HostRuntime) {
    for (puts, expected) in [(2u32, 16), (64, 326), (MOST as u32, 5 * MOST as u64 + 6)] {
        let mut machine = open(&rt, &[0; MOST], 1);
        begin(&mut machine, 0, first_puts(puts));
        equal(&rt, exchanges(&mut machine), puts + 1);
        equal(&rt, told(&machine, 0), WON);
        equal(&rt, steps(&machine, 0), expected);
    }
}

// The owner stops behind its first install. The other copies all its lines and carries them out.
#[test]
fn a_commit_of_the_most_lines_is_helped(rt: HostRuntime) {
    let most = MOST as u32;
    let mut machine = open(&rt, &[0; MOST], 2);
    begin(&mut machine, 0, first_puts(most));
    step(&mut machine, 0, 2 * most + 5);
    begin(&mut machine, 1, put(Mode::All, 0, 0, 9));
    equal(&rt, end(&mut machine, 1), (4 * MOST as u64 + 16, LOST));
    equal(&rt, end(&mut machine, 0), (2 * MOST as u64 + 3, WON));
    for loc in [0, most - 1] {
        equal_at(&rt, loc, look(&mut machine, 1, loc), shown(loc, 1, 1));
    }
}

fn put_line() -> Line {
    Line {
        seen: seen(3, 2, 5),
        put: Some(7),
    }
}

fn compared_line() -> Line {
    Line {
        seen: seen(2, 1, 4),
        put: None,
    }
}

fn decides_its_own(seat: &Seat) -> bool {
    matches!(
        seat.access(),
        Access::Status(0, Touch::CompareExchange { old: _, new: _ })
    )
}

#[test]
fn a_seat_is_written_where_a_commit_has_come_to(rt: HostRuntime) {
    let mut seat = Seat::new(0, 4, 0);
    let lines = [put_line()];
    let point = Point {
        made: 6,
        calls: 1,
        stage: Stage::Own {
            own: Handle {
                descriptor: 0,
                generation: 1,
            },
            step: OwnStep::Pass(PassStep::Install { line: 0 }),
        },
    };
    seat.stand_at(Mode::Light, &lines, point);
    equal(
        &rt,
        (seat.steps(), seat.calls(), seat.own()),
        (6, 1, Some((0, 1))),
    );
    equal(
        &rt,
        (seat.told(), seat.is_idle(), decides_its_own(&seat)),
        (None, false, false),
    );
    seat.answer(&Found::Word(Word::Plain {
        version: 2,
        value: 5,
    }));
    equal(&rt, (seat.steps(), decides_its_own(&seat)), (7, true));
    seat.end_with(11, 1, Told::Succeeded { number: 1 });
    equal(
        &rt,
        (seat.steps(), seat.told(), seat.is_idle()),
        (11, WON, true),
    );
}

#[test]
fn a_seat_tells_what_it_was_made_with(rt: HostRuntime) {
    let seat = Seat::new(2, 10, 6);
    equal(
        &rt,
        (
            seat.caller(),
            seat.descriptors(),
            seat.first(),
            seat.calls(),
        ),
        (2, 10, 6, 0),
    );
}

#[test]
fn the_lines_of_a_commit_are_found_and_packed(rt: HostRuntime) {
    let lines = [compared_line(), put_line()];
    equal(&rt, next_line(Pick::Put, Mode::All, &lines, 0), Some(1));
    equal(
        &rt,
        next_line(Pick::Installed, Mode::All, &lines, 0),
        Some(0),
    );
    equal(
        &rt,
        next_line(Pick::Checked, Mode::Light, &lines, 0),
        Some(0),
    );
    equal(&rt, next_line(Pick::Checked, Mode::Light, &lines, 1), None);
    holds(
        &rt,
        matches!(
            from_install(Mode::Light, &lines, 0),
            PassStep::Install { line: 1 }
        ),
    );
    let first = First {
        put: true,
        version: 2,
        before: 5,
    };
    equal(
        &rt,
        (first_of(&lines[1]), second_of(&lines[1])),
        (first, Second { loc: 3, after: 7 }),
    );
    equal(&rt, (bit_of(3), bit_of(64)), (8, 0));
}
