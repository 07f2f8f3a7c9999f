//! Swaps in one call.

ghost use Rattle.std.specs.Prelude.{◌≡◌};
ghost use Rattle.kc_table_laws.specs.Tasks.{IsSameSeat, KnowsRead};

use crate::asserts::{equal, holds};
use crate::tests::{
    FAILED, SEVEN_AND_EIGHT, SUCCEEDED, crossed, end, go, hang, opened, saw, saw_both, see, steps,
    steps_of,
};
use kc_machine_steps::Told;
use kc_machine_words::Mode;
use kc_model::{LAST_VERSION, Loc, Seen};
use kc_table::{KcSeat, KcTable, Wakes};
use std::test::Fail;

// Swaps a read that the seat knows; false where a task runs, or the version is the last.
fn swap(table: &KcTable, seat: &mut KcSeat, seen: Seen, after: u32) -> bool
    requires table { seat.old.of ≡ table.now }
    requires read { KnowsRead seat.old seen }
    ensures same { IsSameSeat seat.old seat.new }
{
    if seat.busy() || seen.version >= LAST_VERSION {
        return false;
    }
    table.swap(seat, seen, after);
    true
}

#[test]
fn a_swap_in_one_call_makes_its_steps(rt: HostRuntime) {
    let (table, mut a, mut b) = opened(&rt, &[5, 6]);
    let mine = saw(&rt, &table, &mut a, Loc(0));
    let theirs = saw(&rt, &table, &mut b, Loc(0));
    equal(
        &rt,
        (swap(&table, &mut a, mine, 7), a.steps(), a.told()),
        (true, 3, SUCCEEDED),
    );
    // One that fails has no wake.
    equal(
        &rt,
        (swap(&table, &mut b, theirs, 9), b.steps(), b.told()),
        (true, 2, FAILED),
    );
    let seven = Seen {
        loc: Loc(0),
        version: 1,
        value: 7,
    };
    equal(&rt, see(&table, &mut b, Loc(0)), Some(seven));
}

#[test]
fn a_swap_is_crossed_at_anothers_reference(rt: HostRuntime) {
    let (table, mut a, mut b) = opened(&rt, &[5, 6]);
    let mine = saw_both(&rt, &table, &mut a);
    let theirs = saw(&rt, &table, &mut b, Loc(0));
    let made = go(&rt, &table, &mut a, Mode::All, &mine, &SEVEN_AND_EIGHT, 9);
    equal(&rt, made, 9);
    holds(&rt, swap(&table, &mut b, theirs, 9));
    equal(&rt, b.told(), crossed(0));
    equal(&rt, b.own(), None);
    equal(&rt, end(&table, &mut a, &mine).1, SUCCEEDED);
}

#[test]
fn a_swap_in_one_call_wakes_who_hangs_on_it(rt: HostRuntime) {
    let (table, mut a, mut b) = opened(&rt, &[0]);
    let zero = Seen {
        loc: Loc(0),
        version: 0,
        value: 0,
    };
    holds(&rt, hang(&mut b, zero));
    equal(&rt, end(&table, &mut b, &[]), (2, Some(Told::Hung)));
    let seen = saw(&rt, &table, &mut a, Loc(0));
    holds(&rt, swap(&table, &mut a, seen, 1));
    // It owes a signal.
    let mut wakes = Wakes::none();
    equal(&rt, steps_of(&table, &mut a, &[], 100, &mut wakes), 1);
    equal(&rt, a.told(), SUCCEEDED);
    equal(&rt, wakes.bits(), 0b10);
    holds(&rt, table.signalled(&mut b));
}
