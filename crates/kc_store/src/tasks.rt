//! Tasks of a call: each ends, by steps that are left to the call, or by a halt. With no step left none is begun.

ghost use Rattle.std.specs.Prelude.{◌≡◌, ◌≢◌, ◌+◌, ◌-◌, ◌≤◌, ◌⊎◌, true, false, Some, IfNone, IfSome, [], ◌∷◌, length};
ghost use Rattle.kc_model.specs.declared.footprint.TheConstants.{MOST};
ghost use Rattle.kc_model.specs.Footprint.{IsBelow, IsWellMade};
ghost use Rattle.kc_machine_steps.specs.Lines.{lines_of};
ghost use Rattle.kc_machine_steps.specs.declared.task.Task.{Task};
ghost use Rattle.kc_machine_steps.specs.declared.task.Task.TheVariants as task;
ghost use Rattle.kc_machine_steps.specs.declared.task.Told.TheVariants as told;
ghost use Rattle.kc_machine_words.specs.declared.words.Mode.TheVariants as mode;
ghost use Rattle.kc_hang.specs.kc_machine.Schedules.{IsWellMadeTask};
ghost use Rattle.kc_hang.specs.kc_machine.Seats.{is_idle};
ghost use Rattle.kc_hang.specs.kc_machine_traces.Traces.{swap_line};
ghost use Rattle.kc_hang.specs.kc_table_moves.Views.{KnowsReads, SeatView, opening_at_seat};
ghost use Rattle.kc_hang.specs.kc_table_laws.Halts.{is_halted, may_halt, was_halted};
ghost use Rattle.kc_hang.specs.kc_table_laws.Tasks.{KeepsKnown};
ghost use Rattle.kc_store.specs.Steps.{steps_made};
ghost use Rattle.kc_store.specs.Tries.{is_told_crossed};
ghost use Rattle.kc_store.specs.Works.{AllCommitted, AllInstalled, EndsOrIsLeft, MayRun, Runs, is_looking, is_one_put_line, is_told_committing, is_told_swapping, is_told_worn};
ghost use Rattle.kc_hang.specs.kc_table_laws.Told.{IsWornOut};

use crate::budget::Budget;
use kc_machine_steps::Told;
use kc_machine_words::Mode;
use kc_model::{Footprint, Line, Seen};
use kc_table::{KcSeat, KcTable, Wakes};

/// What becomes of those whom the steps of a commit signal.
pub(crate) trait Signalled {
    /// Takes them over from a task that has ended.
    fn take(&mut self, table: &KcTable, wakes: Wakes);
}

/// They are woken at once.
#[derive(Drop)]
pub(crate) struct Woken;

impl Signalled for Woken {
    fn take(&mut self, table: &KcTable, wakes: Wakes) {
        table.wake(wakes);
    }
}

/// They are noted.
impl Signalled for Wakes {
    fn take(&mut self, _table: &KcTable, wakes: Wakes) {
        self.add(wakes);
    }
}

/// Ends the task that runs: by as many steps as are left, and then by a halt. It notes whom they signal: a look
/// signals nobody.
fn end_task(table: &KcTable, seat: &mut KcSeat, budget: Budget, wakes: &mut Wakes)
    requires table { seat.old.of ≡ table.now }
    requires busy { is_idle seat.old.seat.work ≡ false }
    requires shown { seat.old.began ≡ false }
    requires calm { was_halted seat.old.seat ≡ false }
    requires halts { may_halt seat.old.seat.work ≡ true }
    ensures runs { (v : SeatView) (t : Task) → Runs v t seat.old → MayRun v t seat.new }
    ensures keeps { KeepsKnown seat.old seat.new }
    ensures idle { is_idle seat.new.seat.work ≡ true }
    ensures spent { seat.new.seat.told ≡ Some told.Halted → budget.most + steps_made seat.old ≤ steps_made seat.new + (seat.old.seat.made - budget.before) }
    ensures mute { is_looking seat.old.seat.work seat.old.seat.told ≡ true → wakes.new ≡ wakes.old }
{
    let mut left = budget.left(seat);
    step_on(table, seat, &mut left, wakes);
    if seat.busy() {
        seat.halt();
        step_to_the_end(table, seat, wakes);
    }
}

/// Ends the look that runs, as `end_task`; it signals nobody. Here lies the local for whom a task signals: one of each look's own
/// would be written at each look.
#[cold]
#[inline(never)]
pub(crate) fn end_look(table: &KcTable, seat: &mut KcSeat, budget: Budget)
    requires table { seat.old.of ≡ table.now }
    requires busy { is_idle seat.old.seat.work ≡ false }
    requires shown { seat.old.began ≡ false }
    requires calm { was_halted seat.old.seat ≡ false }
    requires halts { may_halt seat.old.seat.work ≡ true }
    requires looks { is_looking seat.old.seat.work seat.old.seat.told ≡ true }
    ensures runs { (v : SeatView) (t : Task) → Runs v t seat.old → MayRun v t seat.new }
    ensures keeps { KeepsKnown seat.old seat.new }
    ensures idle { is_idle seat.new.seat.work ≡ true }
    ensures spent { seat.new.seat.told ≡ Some told.Halted → budget.most + steps_made seat.old ≤ steps_made seat.new + (seat.old.seat.made - budget.before) }
{
    let mut wakes = Wakes::none();
    end_task(table, seat, budget, &mut wakes);
    wakes.let_go();
}

/// Ends the commit or the swap that runs, as `end_task`. Here lies the local for whom its steps signal: a lock's instruction waits
/// for each word that was written before it.
#[cold]
#[inline(never)]
fn end_commit<S: Signalled>(table: &KcTable, seat: &mut KcSeat, budget: Budget, signalled: &mut S)
    requires table { seat.old.of ≡ table.now }
    requires busy { is_idle seat.old.seat.work ≡ false }
    requires shown { seat.old.began ≡ false }
    requires calm { was_halted seat.old.seat ≡ false }
    requires halts { may_halt seat.old.seat.work ≡ true }
    ensures runs { (v : SeatView) (t : Task) → Runs v t seat.old → MayRun v t seat.new }
    ensures idle { is_idle seat.new.seat.work ≡ true }
    ensures spent { seat.new.seat.told ≡ Some told.Halted → budget.most + steps_made seat.old ≤ steps_made seat.new + (seat.old.seat.made - budget.before) }
{
    let mut wakes = Wakes::none();
    end_task(table, seat, budget, &mut wakes);
    signalled.take(table, wakes);
}

// Steps until the task has ended, or none is left.
fn step_on(table: &KcTable, seat: &mut KcSeat, left: &mut u64, wakes: &mut Wakes)
    requires table { seat.old.of ≡ table.now }
    requires busy { is_idle seat.old.seat.work ≡ false }
    requires shown { seat.old.began ≡ false }
    requires calm { was_halted seat.old.seat ≡ false }
    requires halts { may_halt seat.old.seat.work ≡ true }
    ensures table { seat.new.of ≡ seat.old.of }
    ensures shown { seat.new.began ≡ false }
    ensures halts { is_idle seat.new.seat.work ≡ false → may_halt seat.new.seat.work ≡ true }
    ensures runs { (v : SeatView) (t : Task) → Runs v t seat.old → Runs v t seat.new }
    ensures keeps { KeepsKnown seat.old seat.new }
    ensures calm { is_idle seat.new.seat.work ≡ true → seat.new.seat.told ≢ Some told.Halted }
    ensures spent { is_idle seat.new.seat.work ≡ false → left.new ≡ 0 }
    ensures made { steps_made seat.old + left.old ≤ steps_made seat.new + left.new }
    ensures mute { is_looking seat.old.seat.work seat.old.seat.told ≡ true → (is_looking seat.new.seat.work seat.new.seat.told ≡ true) × (wakes.new ≡ wakes.old) }
{
    'steps: while *left > 0 && seat.busy() {
        table.step(seat, wakes);
        *left -= 1;
    }
}

// Steps until a task that was halted has ended.
fn step_to_the_end(table: &KcTable, seat: &mut KcSeat, wakes: &mut Wakes)
    requires table { seat.old.of ≡ table.now }
    requires shown { seat.old.began ≡ false }
    requires halted { is_idle seat.old.seat.work ≡ false → is_halted seat.old.seat ≡ true }
    ensures runs { (v : SeatView) (t : Task) → MayRun v t seat.old → MayRun v t seat.new }
    ensures keeps { KeepsKnown seat.old seat.new }
    ensures idle { is_idle seat.new.seat.work ≡ true }
    ensures made { steps_made seat.old ≤ steps_made seat.new }
    ensures mute { is_looking seat.old.seat.work seat.old.seat.told ≡ true → (is_looking seat.new.seat.work seat.new.seat.told ≡ true) × (wakes.new ≡ wakes.old) }
{
    'steps: while seat.busy() {
        table.step(seat, wakes);
    }
}

/// Commits the footprint, whose lines these are: where it reads one location and puts it, by a swap; where it doesn't, or the
/// swap was crossed, in mode Light, and where that was crossed once more in mode All. Who was told that no life is left swaps
/// no more.
#[inline(always)]
pub(crate) fn commit<S: Signalled>(
    table: &KcTable,
    seat: &mut KcSeat,
    footprint: &Footprint,
    lines: &[Line],
    worn: bool,
    budget: Budget,
    signalled: &mut S,
) -> Told
    requires table { seat.old.of ≡ table.now }
    requires idle { is_idle seat.old.seat.work ≡ true }
    requires lines { lines_of footprint.now ≡ lines.now }
    requires few { length lines.now ≤ MOST }
    requires made { IsWellMade footprint.now × IsBelow seat.old.of.origin.locations footprint.now }
    requires known { KnowsReads seat.old (task.Commit footprint.now mode.Light) }
    requires worn { worn ≡ true → IsWornOut (opening_at_seat seat.old) seat.old.past }
    ensures all { AllCommitted footprint.now result seat.old budget seat.new }
    ensures worn { worn ≡ true → is_told_worn result ≡ true }
{
    if let Some((seen, after)) = only_put(lines, worn) {
        let told = swap(table, seat, seen, after, budget, signalled);
        if !is_crossed(told) {
            return told;
        }
    }
    install(table, seat, footprint, lines, budget, signalled)
}

// The read and the value of the only line, where it puts and may be swapped.
#[inline(always)]
fn only_put(lines: &[Line], worn: bool) -> Option<(Seen, u32)>
    ensures some { IfSome result (λ x. (lines.now ≡ swap_line x.0 x.1 ∷ []) × (worn ≡ false)) }
    ensures none { IfNone result ((is_one_put_line lines.now ≡ false) ⊎ (worn ≡ true)) }
{
    if worn || lines.len() != 1 {
        return None;
    }
    let line = lines[0];
    // Field by field, as they were written: a load of two fields behind a store of one waits.
    let Seen {
        loc,
        version,
        value,
    } = line.seen;
    let seen = Seen {
        loc,
        version,
        value,
    };
    line.put.map(|after| (seen, after))
}

// One swap.
#[inline(always)]
fn swap<S: Signalled>(
    table: &KcTable,
    seat: &mut KcSeat,
    seen: Seen,
    after: u32,
    budget: Budget,
    signalled: &mut S,
) -> Told
    requires table { seat.old.of ≡ table.now }
    requires idle { is_idle seat.old.seat.work ≡ true }
    requires made { IsWellMadeTask seat.old.of.origin.locations (task.Swap seen after) }
    requires known { KnowsReads seat.old (task.Swap seen after) }
    ensures ends { EndsOrIsLeft (task.Swap seen after) seat.old budget result seat.new }
    ensures swapping { is_told_swapping (Some result) ≡ true }
{
    if !budget.has_steps(seat) {
        return Told::Halted;
    }
    match table.swap(seat, seen, after) {
        Some(told) => told,
        None => {
            end_commit(table, seat, budget, signalled);
            answer_of(seat)
        }
    }
}

// In mode Light, and where that was crossed once more in mode All.
fn install<S: Signalled>(
    table: &KcTable,
    seat: &mut KcSeat,
    footprint: &Footprint,
    lines: &[Line],
    budget: Budget,
    signalled: &mut S,
) -> Told
    requires table { seat.old.of ≡ table.now }
    requires idle { is_idle seat.old.seat.work ≡ true }
    requires lines { lines_of footprint.now ≡ lines.now }
    requires few { length lines.now ≤ MOST }
    requires made { IsWellMade footprint.now × IsBelow seat.old.of.origin.locations footprint.now }
    requires known { KnowsReads seat.old (task.Commit footprint.now mode.Light) }
    ensures all { AllInstalled footprint.now result seat.old budget seat.new }
    ensures worn { IsWornOut (opening_at_seat seat.old) seat.old.past → is_told_worn result ≡ true }
{
    let told = commit_in(
        table,
        seat,
        footprint,
        Mode::Light,
        lines,
        budget,
        signalled,
    );
    if is_crossed(told) {
        return commit_in(table, seat, footprint, Mode::All, lines, budget, signalled);
    }
    told
}

fn is_crossed(told: Told) -> bool
    ensures { result ≡ is_told_crossed told }
{
    matches!(told, Told::Crossed { .. })
}

// One commit, in one mode.
fn commit_in<S: Signalled>(
    table: &KcTable,
    seat: &mut KcSeat,
    footprint: &Footprint,
    mode: Mode,
    lines: &[Line],
    budget: Budget,
    signalled: &mut S,
) -> Told
    requires table { seat.old.of ≡ table.now }
    requires idle { is_idle seat.old.seat.work ≡ true }
    requires lines { lines_of footprint.now ≡ lines.now }
    requires few { length lines.now ≤ MOST }
    requires made { IsWellMade footprint.now × IsBelow seat.old.of.origin.locations footprint.now }
    requires known { KnowsReads seat.old (task.Commit footprint.now mode) }
    ensures ends { EndsOrIsLeft (task.Commit footprint.now mode) seat.old budget result seat.new }
    ensures committing { is_told_committing (Some result) ≡ true }
{
    if !budget.has_steps(seat) {
        return Told::Halted;
    }
    table.commit(seat, footprint, mode, lines);
    if seat.busy() {
        end_commit(table, seat, budget, signalled);
        return answer_of(seat);
    }
    answer_of(seat)
}

fn answer_of(seat: &KcSeat) -> Told
    requires { is_told_committing seat.now.seat.told ≡ true }
    ensures { seat.now.seat.told ≡ Some result }
{
    match seat.told() {
        Some(told) => told,
        None => unreachable!("a commit that has ended was told something"),
    }
}
