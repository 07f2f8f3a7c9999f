//! Owners that stopped or were halted after each number of steps.

ghost use Rattle.std.specs.Prelude.{◌≡◌};

use crate::asserts::{equal, equal_at};
use crate::tests::{FAILED, SUCCEEDED, end, go, opened, saw_both, see, steps, together};
use kc_machine_steps::Told;
use kc_machine_words::Mode;
use kc_model::{Loc, Seen};
use kc_table::{KcSeat, KcTable};
use std::process::Abort;
use std::test::Fail;

const HALTED: Option<Told> = Some(Told::Halted);

// More steps than any of these commits makes.
const STEPS: u32 = 100;

// How a commit ended: its steps behind its stop, and what it was told.
type Ended = (u32, Option<Told>);

// Version and value of each of the two locations.
type Stood = [(u32, u32); 2];

// What stands at both locations when both seats have come back.
fn close(
    rt: &impl AllocGlobal,
    table: KcTable,
    first: KcSeat,
    second: KcSeat,
) -> Result<Stood, Fail>
    requires table { (first.of ≡ table) × (second.of ≡ table) × (table.origin.callers ≡ 2) }
    requires numbers { (first.number ≡ 0) × (second.number ≡ 1) }
{
    let seats = together(rt, &table, first, second)?;
    let Ok(closed) = table.close(rt.alloc(), seats) else {
        return Err(Fail::from("not closed"));
    };
    let (Some(zero), Some(one)) = (closed.seen(Loc(0)), closed.seen(Loc(1))) else {
        return Err(Fail::from("no such location"));
    };
    Ok([(zero.version, zero.value), (one.version, one.value)])
}

// A commit of the first seat stops; one of the other runs to its end, and then the first goes on. How the other's ended,
// how the first one's did, and what stands then.
fn stop(rt: &(impl Abort + AllocGlobal), made: u32) -> Result<(Ended, Ended, Stood), Fail> {
    let (table, mut a, mut b) = opened(rt, &[5, 6]);
    let mine = saw_both(rt, &table, &mut a);
    let theirs = saw_both(rt, &table, &mut b);
    let puts = [Some(7), Some(8)];
    equal(
        rt,
        go(rt, &table, &mut a, Mode::All, &mine, &puts, made),
        made,
    );
    let puts = [Some(9), Some(9)];
    let others = go(rt, &table, &mut b, Mode::All, &theirs, &puts, STEPS);
    let other = (others, b.told());
    let own = end(&table, &mut a, &mine);
    let stood = close(rt, table, a, b)?;
    Ok((other, own, stood))
}

// A commit of the first seat is halted. How it ended, and what stands then.
fn halt(rt: &(impl Abort + AllocGlobal), made: u32) -> Result<(Ended, Stood), Fail> {
    let (table, mut a, b) = opened(rt, &[5, 6]);
    let mine = saw_both(rt, &table, &mut a);
    let puts = [Some(7), Some(8)];
    equal(
        rt,
        go(rt, &table, &mut a, Mode::All, &mine, &puts, made),
        made,
    );
    a.halt();
    let own = end(&table, &mut a, &[]);
    let stood = close(rt, table, a, b)?;
    Ok((own, stood))
}

#[test]
fn an_owner_that_stopped_anywhere_is_helped(rt: HostRuntime) -> Result<(), Fail> {
    // Where it stopped, the other's steps, its own further ones.
    for (made, others, further) in [
        (0, 16, 13),
        (1, 16, 12),
        (2, 16, 11),
        (3, 16, 10),
        (4, 16, 9),
        (5, 16, 8),
        (6, 16, 7),
        (7, 16, 6),
        (8, 16, 5),
        (9, 27, 7),
        (10, 27, 6),
        (11, 20, 5),
        (12, 13, 4),
        (13, 13, 3),
        (14, 13, 2),
        (15, 13, 1),
        (16, 13, 0),
    ] {
        let (other, own, stood) = stop(&rt, made)?;
        if made < 9 {
            equal_at(&rt, made, other, (others, SUCCEEDED));
            equal_at(&rt, made, own, (further, FAILED));
            equal_at(&rt, made, stood, [(1, 9), (1, 9)]);
        } else {
            equal_at(&rt, made, other, (others, FAILED));
            equal_at(&rt, made, own, (further, SUCCEEDED));
            equal_at(&rt, made, stood, [(1, 7), (1, 8)]);
        }
    }
    Ok(())
}

#[test]
fn an_owner_that_was_halted_leaves_nothing_half_done(rt: HostRuntime) -> Result<(), Fail> {
    let nothing = [(0, 5), (0, 6)];
    let all = [(1, 7), (1, 8)];
    // Where it was halted, its further steps, what it is told, what stands.
    for (made, further, told, stands) in [
        (2, 1, HALTED, nothing),
        (3, 1, HALTED, nothing),
        (4, 1, HALTED, nothing),
        (5, 1, HALTED, nothing),
        (6, 1, HALTED, nothing),
        (7, 1, HALTED, nothing),
        (8, 4, HALTED, nothing),
        (9, 4, HALTED, nothing),
        (10, 4, HALTED, nothing),
        (11, 5, SUCCEEDED, all),
        (12, 4, SUCCEEDED, all),
        (13, 3, SUCCEEDED, all),
        (14, 2, SUCCEEDED, all),
        (15, 1, SUCCEEDED, all),
        (16, 0, SUCCEEDED, all),
    ] {
        let (own, stood) = halt(&rt, made)?;
        equal_at(&rt, made, own, (further, told));
        equal_at(&rt, made, stood, stands);
    }
    Ok(())
}

#[test]
fn a_view_of_what_an_owner_left_stands_once_its_commit_has_helped(rt: HostRuntime) {
    let (table, mut owner, mut viewer) = opened(&rt, &[5, 6]);
    let mine = saw_both(&rt, &table, &mut owner);
    let puts = [Some(7), Some(8)];
    let made = go(&rt, &table, &mut owner, Mode::All, &mine, &puts, 9);
    equal(&rt, made, 9);
    // No plain word stands there, and a view doesn't help.
    equal(&rt, see(&table, &mut viewer, Loc(0)), None);
    steps(&table, &mut viewer, &[], STEPS);
    equal(&rt, see(&table, &mut viewer, Loc(0)), None);
    steps(&table, &mut viewer, &[], STEPS);
    let theirs = saw_both(&rt, &table, &mut viewer);
    go(
        &rt,
        &table,
        &mut viewer,
        Mode::All,
        &theirs,
        &[None, None],
        STEPS,
    );
    equal(&rt, viewer.told(), FAILED);
    let seven = Seen {
        loc: Loc(0),
        version: 1,
        value: 7,
    };
    equal(&rt, see(&table, &mut viewer, Loc(0)), Some(seven));
}
