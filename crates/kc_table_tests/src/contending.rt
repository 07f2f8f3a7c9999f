//! Eight seats on four threads, whose commits contend for two locations.

ghost use Rattle.std.specs.Prelude.{◌≡◌, ◌<◌, All, IfSome};
ghost use Rattle.kc_table_laws.specs.Tasks.{IsSameSeat};

use crate::asserts::equal;
use crate::tests::{look_both, run, saw_both, step};
use kc_machine_steps::Told;
use kc_machine_words::Mode;
use kc_model::{Loc, Seen};
use kc_table::{KcSeat, KcTable};
use std::process::Abort;
use std::thread;
use std::thread::Threads;

// The commits of each seat.
const COMMITS: u32 = 500;

// More turns than any thread makes.
const TURNS: u32 = 1_000_000_000;

// What commits put at a location: how many put there, and what they added in all.
#[derive(Clone, Copy, Debug, PartialEq)]
struct Sum {
    puts: u32,
    added: u32,
}

impl Sum {
    // The sum with one more put, or with none.
    fn with(self, add: Option<u32>) -> Sum {
        match add {
            None => self,
            Some(add) => Sum {
                puts: self.puts.wrapping_add(1),
                added: self.added.wrapping_add(add),
            },
        }
    }

    fn and(self, other: Sum) -> Sum {
        Sum {
            puts: self.puts.wrapping_add(other.puts),
            added: self.added.wrapping_add(other.added),
        }
    }
}

// What commits put at both locations.
type Sums = [Sum; 2];

const NOTHING: Sums = [Sum { puts: 0, added: 0 }; 2];

fn sum_of(first: Sums, second: Sums) -> Sums {
    [first[0].and(second[0]), first[1].and(second[1])]
}

// The commits of a seat: how many have still to succeed, what the one that runs adds at each location, and what those that
// succeeded put.
#[derive(Clone, Copy)]
struct Tally {
    left: u32,
    adds: [Option<u32>; 2],
    sums: Sums,
}

impl Tally {
    fn new(commits: u32) -> Tally {
        Tally {
            left: commits,
            adds: [None; 2],
            sums: NOTHING,
        }
    }

    // Counts a commit that succeeded.
    fn count(&mut self) {
        let [first, second] = self.adds;
        self.left = self.left.saturating_sub(1);
        self.sums = [self.sums[0].with(first), self.sums[1].with(second)];
    }
}

// Begins the seat's next commit at what it sees now, and runs it as far as it goes in one call. In turn it puts at both
// locations, at the second one and at the first one; what it doesn't put it compares.
fn begin_next(table: &KcTable, seat: &mut KcSeat, tally: &mut Tally)
    requires table { seat.old.of ≡ table.now }
    requires locations { 1 < seat.old.of.origin.locations }
    ensures same { IsSameSeat seat.old seat.new }
{
    let Some(reads) = look_both(table, seat) else {
        return;
    };
    let (mode, adds) = match tally.left % 4 {
        0 => (Mode::All, [Some(1), Some(2)]),
        1 => (Mode::Light, [None, Some(3)]),
        2 => (Mode::Light, [Some(4), None]),
        _ => (Mode::Light, [Some(5), Some(6)]),
    };
    tally.adds = adds;
    run(
        table,
        seat,
        mode,
        &reads,
        &[raised(reads[0], adds[0]), raised(reads[1], adds[1])],
    );
}

fn raised(seen: Seen, add: Option<u32>) -> Option<u32> {
    match add {
        None => None,
        Some(add) => Some(seen.value.wrapping_add(add)),
    }
}

// One turn of a seat: a step of what runs, or its next commit. Counts one that succeeded.
fn turn(table: &KcTable, seat: &mut KcSeat, tally: &mut Tally)
    requires table { seat.old.of ≡ table.now }
    requires locations { 1 < seat.old.of.origin.locations }
    ensures same { IsSameSeat seat.old seat.new }
{
    if seat.busy() {
        step(table, seat);
    } else if tally.left > 0 {
        begin_next(table, seat, tally);
    } else {
        return;
    }
    if let Some(Told::Succeeded { number: _ }) = seat.told() {
        tally.count();
    }
}

// Turns of two seats, one after the other, until each has made its commits. The first seat comes back, with what both put.
fn add(table: &KcTable, mut first: KcSeat, mut second: KcSeat) -> (KcSeat, Sums)
    requires table { (first.of ≡ table.now) × (second.of ≡ table.now) × (1 < table.now.origin.locations) }
    ensures same { IsSameSeat first result.0 }
{
    let mut firsts = Tally::new(COMMITS);
    let mut seconds = Tally::new(COMMITS);
    for _ in 0..TURNS {
        if firsts.left == 0 && seconds.left == 0 {
            break;
        }
        turn(table, &mut first, &mut firsts);
        turn(table, &mut second, &mut seconds);
    }
    (first, sum_of(firsts.sums, seconds.sums))
}

// A thread's two seats.
#[derive(Drop)]
struct Pair {
    first: KcSeat,
    second: KcSeat,
}

// A table of two locations, and the seats of eight callers.
#[tactic(auto, using(crate::proofs::Seats::are_of))]
fn open_eight(rt: &HostRuntime) -> Option<(KcTable, Vec<KcSeat>)>
    ensures { IfSome result (λ t. (All (λ s. s.of ≡ t.0) t.1.items) × (t.0.origin.locations ≡ 2)) }
{
    let Ok((table, seats)) = KcTable::open(rt.alloc(), &[5, 6], 8) else {
        return None;
    };
    Some((table, seats))
}

// The next two seats.
fn next_pair(table: &KcTable, seats: &mut Vec<KcSeat>) -> Option<Pair>
    requires { All (λ s. s.of ≡ table.now) seats.old.items }
    ensures pair { IfSome result (λ p. (p.first.of ≡ table.now) × (p.second.of ≡ table.now)) }
    ensures rest { All (λ s. s.of ≡ table.now) seats.new.items }
{
    let first = seats.pop()?;
    let second = seats.pop()?;
    Some(Pair { first, second })
}

// The same, where a test can't go on without them.
fn take_pair(rt: &impl Abort, table: &KcTable, seats: &mut Vec<KcSeat>) -> Pair
    requires { All (λ s. s.of ≡ table.now) seats.old.items }
    ensures pair { (result.first.of ≡ table.now) × (result.second.of ≡ table.now) }
    ensures rest { All (λ s. s.of ≡ table.now) seats.new.items }
{
    next_pair(table, seats).expect(rt, "no seats")
}

// Two threads, with two seats each.
fn add_by_two<R: Threads + Sync>(rt: &R, table: &KcTable, a: Pair, b: Pair) -> (KcSeat, Sums)
    requires first { (a.first.of ≡ table.now) × (a.second.of ≡ table.now) × (1 < table.now.origin.locations) }
    requires second { (b.first.of ≡ table.now) × (b.second.of ≡ table.now) }
    ensures same { IsSameSeat a.first result.0 }
{
    let (ours, theirs) = thread::join(
        rt,
        move || add(table, a.first, a.second),
        move || add(table, b.first, b.second),
    );
    let (seat, some) = ours;
    let (_seat, others) = theirs;
    (seat, sum_of(some, others))
}

#[test]
fn what_contending_seats_were_told_adds_up(rt: HostRuntime) {
    let (table, mut seats) = open_eight(&rt).expect(&rt, "not opened");
    let a = take_pair(&rt, &table, &mut seats);
    let b = take_pair(&rt, &table, &mut seats);
    let c = take_pair(&rt, &table, &mut seats);
    let d = take_pair(&rt, &table, &mut seats);
    let shared = &table;
    let runtime = &rt;
    let (ours, theirs) = thread::join(
        &rt,
        move || add_by_two(runtime, shared, a, b),
        move || add_by_two(runtime, shared, c, d),
    );
    let (mut seat, some) = ours;
    let (_seat, others) = theirs;
    let sums = sum_of(some, others);
    let [first, second] = saw_both(&rt, &table, &mut seat);
    let [at_first, at_second] = sums;
    equal(
        &rt,
        (first.version, first.value),
        (at_first.puts, at_first.added.wrapping_add(5)),
    );
    equal(
        &rt,
        (second.version, second.value),
        (at_second.puts, at_second.added.wrapping_add(6)),
    );
    // Of each four commits of a seat three put at each of the locations.
    equal(
        &rt,
        (at_first.puts, at_second.puts),
        (6 * COMMITS, 6 * COMMITS),
    );
}
