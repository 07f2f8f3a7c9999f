//! The counts of reads and puts from which the order is made.

ghost use Rattle.std.specs.Prelude.{◌≡◌, ℕ, ◌+◌, ◌-◌, ◌*◌, ◌^◌, ◌<◌, ◌≤◌, All, List, length, slice_index, sum, sum_by, take, vec_capacity};
ghost use Rattle.kc_model.specs.declared.footprint.TheConstants.{MOST};
ghost use Rattle.kc_history.specs.Counts.{AllWellMade, Counted, Forgets, Slots, putters, readers, records_in, slot, width};

use crate::records::Records;
use kc_model::{Put, Seen};

// Adds the reads of a record to the counts of readers.
fn count_reads(reads: &[Seen], starts: &[usize], left: &mut [usize])
    requires slots { Slots starts.now (length left.old) }
    requires below { All (λ r. r.loc.0 + 1 < length starts.now) reads.now }
    requires room { (k : ℕ) → slice_index left.old k + length reads.now < 2 ^ 64 }
    ensures counts { (l v : ℕ) → l + 1 < length starts.now → v < width starts.now l → slice_index left.new (slot starts.now l v) ≡ slice_index left.old (slot starts.now l v) + readers l v reads.now }
    ensures most { (k : ℕ) → slice_index left.new k ≤ slice_index left.old k + length reads.now }
{
    for read in reads {
        let loc = read.loc.0 as usize;
        let width = starts[loc + 1] - starts[loc];
        if (read.version as usize) < width {
            left[starts[loc] + read.version as usize] += 1;
        }
    }
}

// Takes the reads of a record out of the counts of readers.
pub(crate) fn forget_reads(reads: &[Seen], starts: &[usize], left: &mut [usize])
    requires slots { Slots starts.now (length left.old) }
    requires below { All (λ r. r.loc.0 + 1 < length starts.now) reads.now }
    requires stands { All (λ r. r.version < width starts.now r.loc.0) reads.now }
    requires counted { (l v : ℕ) → l + 1 < length starts.now → v < width starts.now l → readers l v reads.now ≤ slice_index left.old (slot starts.now l v) }
    ensures { Forgets starts.now left.old left.new reads.now }
{
    for read in reads {
        left[starts[read.loc.0 as usize] + read.version as usize] -= 1;
    }
}

// Adds the puts of a record to the numbers of versions.
fn count_puts(puts: &[Put], widths: &mut [usize])
    requires below { All (λ p. p.loc.0 < length widths.old) puts.now }
    requires room { sum widths.old + length puts.now < 2 ^ 64 }
    ensures counts { (l : ℕ) → l < length widths.old → slice_index widths.new l ≡ slice_index widths.old l + putters l puts.now }
    ensures sum { sum widths.new ≡ sum widths.old + length puts.now }
{
    for put in puts {
        widths[put.loc.0 as usize] += 1;
    }
}

// Makes of widths where each location's counts start; the last is where they end.
fn sum_up(widths: &mut [usize])
    requires { sum widths.old < 2 ^ 64 }
    ensures { (k : ℕ) → k < length widths.old → slice_index widths.new k ≡ sum (take k widths.old) }
{
    let mut start = 0;
    for width in widths {
        let here = *width;
        *width = start;
        start += here;
    }
}

fn count_list_puts(list: &Records, widths: &mut [usize])
    requires below { All (λ r. All (λ p. p.loc.0 < length widths.old) r.footprint.puts.items) list.now.items }
    requires room { sum widths.old + MOST * length list.now.items < 2 ^ 64 }
    ensures counts { (l : ℕ) → l < length widths.old → slice_index widths.new l ≡ slice_index widths.old l + sum_by (λ r. putters l r.footprint.puts.items) list.now.items }
    ensures sum { sum widths.new ≤ sum widths.old + MOST * length list.now.items }
{
    for i in 0..list.len() {
        count_puts(list.puts(i), widths);
    }
}

fn count_all_puts(records: &[Records], widths: &mut [usize])
    requires below { All (λ list. All (λ r. All (λ p. p.loc.0 < length widths.old) r.footprint.puts.items) list.items) records.now }
    requires room { sum widths.old + MOST * records_in records.now < 2 ^ 64 }
    ensures counts { (l : ℕ) → l < length widths.old → slice_index widths.new l ≡ slice_index widths.old l + sum_by (λ list. sum_by (λ r. putters l r.footprint.puts.items) list.items) records.now }
    ensures sum { sum widths.new ≤ sum widths.old + MOST * records_in records.now }
{
    for list in records {
        count_list_puts(list, widths);
    }
}

fn count_list_reads(list: &Records, starts: &[usize], left: &mut [usize])
    requires slots { Slots starts.now (length left.old) }
    requires below { All (λ c. All (λ r. r.loc.0 + 1 < length starts.now) c.footprint.reads.items) list.now.items }
    requires room { (k : ℕ) → slice_index left.old k + MOST * length list.now.items < 2 ^ 64 }
    ensures counts { (l v : ℕ) → l + 1 < length starts.now → v < width starts.now l → slice_index left.new (slot starts.now l v) ≡ slice_index left.old (slot starts.now l v) + sum_by (λ r. readers l v r.footprint.reads.items) list.now.items }
    ensures most { (k : ℕ) → slice_index left.new k ≤ slice_index left.old k + MOST * length list.now.items }
{
    for i in 0..list.len() {
        count_reads(list.reads(i), starts, left);
    }
}

fn count_all_reads(records: &[Records], starts: &[usize], left: &mut [usize])
    requires slots { Slots starts.now (length left.old) }
    requires below { All (λ list. All (λ c. All (λ r. r.loc.0 + 1 < length starts.now) c.footprint.reads.items) list.items) records.now }
    requires room { (k : ℕ) → slice_index left.old k + MOST * records_in records.now < 2 ^ 64 }
    ensures { (l v : ℕ) → l + 1 < length starts.now → v < width starts.now l → slice_index left.new (slot starts.now l v) ≡ slice_index left.old (slot starts.now l v) + sum_by (λ list. sum_by (λ r. readers l v r.footprint.reads.items) list.items) records.now }
{
    for list in records {
        count_list_reads(list, starts, left);
    }
}

// Makes of the counts so many, all 0, in room that is there.
fn clear(counts: &mut Vec<usize>, size: usize)
    requires { size ≤ vec_capacity counts.old }
    ensures each { (k : ℕ) → slice_index counts.new.items k ≡ 0 }
    ensures size { length counts.new.items ≡ size }
    ensures capacity { vec_capacity counts.new ≡ vec_capacity counts.old }
{
    counts.clear();
    for _ in 0..size {
        counts.push_reserved(0);
    }
}

pub(crate) fn clear_numbers(numbers: &mut [u32])
    ensures { (k : ℕ) → slice_index numbers.new k ≡ 0 }
{
    for number in numbers.iter_mut() {
        *number = 0;
    }
}

fn make_ones(counts: &mut [usize])
    ensures each { (k : ℕ) → k < length counts.new → slice_index counts.new k ≡ 1 }
    ensures sum { sum counts.new ≤ length counts.new }
{
    for count in counts.iter_mut() {
        *count = 1;
    }
}

// Makes all counts anew, as they are where no record stands.
pub(crate) fn count_records(records: &[Records], starts: &mut [usize], left: &mut Vec<usize>)
    requires made { AllWellMade (length starts.old - 1) records.now }
    requires one { 0 < length starts.old }
    requires room { length starts.old + MOST * records_in records.now ≤ vec_capacity left.old }
    requires short { vec_capacity left.old < 2 ^ 64 }
    ensures counted { (next versions : List ℕ) → length starts.new ≡ length versions + 1 → ((u : ℕ) → slice_index next u ≡ 0) → ((l : ℕ) → slice_index versions l ≡ 0) → Counted records.now next versions starts.new left.new.items }
    ensures capacity { vec_capacity left.new ≡ vec_capacity left.old }
{
    make_ones(starts);
    count_all_puts(records, starts);
    sum_up(starts);
    clear(left, starts[starts.len() - 1]);
    count_all_reads(records, starts, left.as_mut_slice());
}
