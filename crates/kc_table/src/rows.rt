//! Looks one after another: the seat is written once.

ghost use Rattle.std.specs.Prelude.{◌≡◌, ◌≢◌, ◌<◌, ◌≤◌, ℕ, true, false, All, length, take};
ghost use Rattle.kc_table_layout.specs.declared.place.TheConstants.{LAST_BASE};
ghost use Rattle.kc_machine.specs.Schedules.{IsWellMadeTask};
ghost use Rattle.kc_machine.specs.Seats.{is_idle};
ghost use Rattle.kc_machine_steps.specs.declared.task.Task.TheVariants.{Look};
ghost use Rattle.kc_model.specs.Word.{IsPackable, packed, unpacked};
ghost use Rattle.kc_model.specs.declared.footprint.Seen.{Seen as SeenValue};
ghost use Rattle.kc_model.specs.declared.word.Word.{Word as WordValue};
ghost use Rattle.kc_model.specs.declared.word.Word.TheVariants.{Plain};
ghost use Rattle.kc_table.specs.Turns.{LooksAgain, LooksUntil, seat_behind, is_read_below};
ghost use Rattle.kc_table_layout.specs.declared.change.Change.TheVariants as change;
ghost use Rattle.kc_table_moves.specs.Atoms.{Aims, Here, is_plain};
ghost use Rattle.kc_table_moves.specs.Rule.{MovedWithin, ReadySeat};
ghost use Rattle.kc_table_moves.specs.Views.{seat_seen_as};
ghost use Rattle.kc_table_moves.specs.declared.view.TheConstants.{MOST_LOADS};

use crate::calls::{load_plain, tell};
use crate::seat::KcSeat;
use crate::table::KcTable;
use kc_machine::Seat;
use kc_machine_steps::{Told, one_more};
use kc_model::{Loc, Seen, Word};
use kc_table_layout::{base_at, location_at};
use kc_table_moves::{Asks, Token, Words};
use std::marker::Brand;

impl KcTable {
    /// Looks at these reads once more, each by one step, as long as the step finds the plain word that the read says: true where all
    /// did. Else the seat has begun the look that didn't, and goes on with it by `step` until it is told. Each load that finds a reference
    /// is made again as `look` makes it.
    #[inline(always)]
    pub fn look_again(&self, seat: &mut KcSeat, reads: &[Seen]) -> bool
        requires table { seat.old.of ≡ self.now }
        requires idle { is_idle seat.old.seat.work ≡ true }
        requires within { All (is_read_below seat.old.of.origin.locations) reads.now }
        ensures all { result ≡ true → LooksAgain seat.old reads.now seat.new }
        ensures until { result ≡ false → LooksUntil seat.old reads.now seat.new }
    {
        let KcSeat {
            machine,
            token,
            began,
            ..
        } = seat;
        look_row(
            &self.words,
            base_at(self.locations),
            token,
            machine,
            began,
            reads,
        )
    }
}

// Looks at each read in turn, until a look finds another word.
#[inline(always)]
fn look_row(
    words: &Words,
    base: usize,
    token: &mut Token,
    machine: &mut Seat,
    began: &mut bool,
    reads: &[Seen],
) -> bool
    requires here { Here words.now.key words.now.table_id base token.old.table_id token.old.me }
    requires ready { ReadySeat token.old.me began.old machine.old }
    requires idle { is_idle machine.old.work ≡ true }
    requires within { All (is_read_below token.old.me.0.origin.locations) reads.now }
    ensures ready { ReadySeat token.new.me began.new machine.new }
    ensures all { result ≡ true → LooksAgain (seat_seen_as token.old.table_id token.old.me began.old machine.old) reads.now (seat_seen_as token.new.table_id token.new.me began.new machine.new) }
    ensures until { result ≡ false → LooksUntil (seat_seen_as token.old.table_id token.old.me began.old machine.old) reads.now (seat_seen_as token.new.table_id token.new.me began.new machine.new) }
{
    let mut made = machine.steps();
    let mut pends = *began;
    for i in 0..reads.len() {
        // Field by field, as they were written: a load of two fields behind a store of one waits.
        let Seen {
            loc,
            version,
            value,
        } = reads[i];
        let word = location_at(loc);
        let number = load_again::<Brand>(words, token, machine, made, reads, i, loc, base, word);
        pends = false;
        if !says(number, version, value) {
            end_row(machine, made, reads, i);
            *began = false;
            tell(machine, loc, number);
            return false;
        }
        made = one_more(made);
    }
    end_row(machine, made, reads, reads.len());
    *began = pends;
    true
}

// The load of a look in a row. The seat lies as it was before the row; only the proof reads how it stands.
#[inline(always)]
fn load_again<B: Asks>(
    words: &Words,
    token: &mut Token,
    _machine: &Seat,
    _made: u64,
    _reads: &[Seen],
    _count: usize,
    _loc: Loc,
    base: usize,
    word: usize,
) -> u64
    requires here { Here words.now.key words.now.table_id base token.old.table_id token.old.me }
    requires seat { (is_idle B.now.work ≡ false) × ReadySeat token.old.me B.began B.now }
    requires aim { Aims words.now.key B.now word change.Load }
    requires plain { (n : ℕ) → B.takes n ≡ is_plain (unpacked n) }
    ensures table { token.new.table_id ≡ token.old.table_id }
    ensures moved { MovedWithin MOST_LOADS B.now B.began token.old.me result token.new.me }
{
    load_plain::<Brand>(words, token, base, word)
}

// Whether these bits are of a plain word with this version and value.
#[inline(always)]
fn says(number: u64, version: u32, value: u32) -> bool
    ensures says { result ≡ true → unpacked number ≡ Plain version value }
    ensures misses { result ≡ false → unpacked number ≢ Plain version value }
    ensures back { (w : WordValue) → IsPackable w → packed w ≡ number → unpacked number ≡ w }
{
    match Word::unpack(number) {
        Word::Plain {
            version: now,
            value: stands,
        } => now == version && stands == value,
        Word::Ref {
            generation: _,
            descriptor: _,
            entry: _,
        } => false,
    }
}

// Writes the seat behind the first so many looks of a row.
#[inline(always)]
fn end_row(machine: &mut Seat, made: u64, reads: &[Seen], count: usize)
    requires { count ≤ length reads.now }
    ensures { machine.new ≡ seat_behind machine.old made (take count reads.now) }
{
    if count == 0 {
        return;
    }
    let last = reads[count - 1];
    let calls = machine.calls();
    machine.end_with(made, calls, Told::Seen(last));
}
