//! The choice of one ready record after another.

ghost use Rattle.std.specs.Prelude.{◌≡◌, ◌↔◌, ℕ, ◌+◌, ◌^◌, ◌<◌, ◌≤◌, All, AllPairs, IsTrue, MatchOption, Some, length, slice_index, slice_index_or, take};
ghost use Rattle.kc_model.specs.declared.footprint.Footprint.{Footprint as Foot};
ghost use Rattle.kc_model.specs.Footprint.{put_at};
ghost use Rattle.kc_history.specs.Order.{version_after, one_record_more, raised, Chooses, NoneReady, NoneLeft};
ghost use Rattle.kc_history.specs.Counts.{AllWellMade, Counted, Forgets, PassesCounts, foot_at, records_in, slot};
ghost use Rattle.kc_history.specs.Tested.{IsTested, AllTested, FindsVersion, IsReadByOne, untested};
ghost use Rattle.kc_history.specs.Ends.{IsFirstLeft};
ghost use Rattle.kc_history.specs.Kept.{print};

use crate::counting::forget_reads;
use crate::record::Place;
use crate::records::Records;
use kc_model::{Put, Seen};

// How many reads of a thread's next record are known to find their versions, and then, how many of its puts end a
// version that it alone still reads. What passed once passes until the record stands, so that no test is made twice.
#[derive(Clone, Copy)]
pub(crate) struct Tested {
    pub reads: usize,
    pub puts: usize,
}

// Nothing is known.
pub(crate) const UNTESTED: Tested = Tested { reads: 0, puts: 0 };

// Goes on behind the reads that are known to find their versions, to the first that doesn't.
fn count_found(reads: &[Seen], versions: &[u32], known: usize) -> usize
    requires below { All (λ r. r.loc.0 < length versions.now) reads.now }
    requires known { All (FindsVersion versions.now) (take known reads.now) }
    ensures found { All (FindsVersion versions.now) (take result reads.now) }
    ensures all { (length reads.now ≤ result) ↔ All (FindsVersion versions.now) reads.now }
{
    for i in known..reads.len() {
        if versions[reads[i].loc.0 as usize] != reads[i].version {
            return i;
        }
    }
    reads.len()
}

// Goes on behind the puts that are known to end versions which one record alone still reads, to the first that doesn't.
fn count_alone(
    puts: &[Put],
    versions: &[u32],
    starts: &[usize],
    left: &[usize],
    known: usize,
) -> usize
    requires versions { All (λ p. p.loc.0 < length versions.now) puts.now }
    requires starts { All (λ p. p.loc.0 < length starts.now) puts.now }
    requires left { All (λ p. slot starts.now p.loc.0 (slice_index versions.now p.loc.0) < length left.now) puts.now }
    requires known { All (IsReadByOne versions.now starts.now left.now) (take known puts.now) }
    ensures alone { All (IsReadByOne versions.now starts.now left.now) (take result puts.now) }
    ensures all { (length puts.now ≤ result) ↔ All (IsReadByOne versions.now starts.now left.now) puts.now }
{
    for i in known..puts.len() {
        let loc = puts[i].loc.0 as usize;
        if left[starts[loc] + versions[loc] as usize] != 1 {
            return i;
        }
    }
    puts.len()
}

// Whether a record may stand; the tests begin where they stopped before.
fn may_stand(
    reads: &[Seen],
    puts: &[Put],
    versions: &[u32],
    starts: &[usize],
    left: &[usize],
    tested: &mut Tested,
) -> bool
    requires reads { All (λ r. r.loc.0 < length versions.now) reads.now }
    requires puts { All (λ p. p.loc.0 < length versions.now) puts.now }
    requires starts { length starts.now ≡ length versions.now + 1 }
    requires left { (l : ℕ) → l < length versions.now → slot starts.now l (slice_index versions.now l) < length left.now }
    requires tested { IsTested versions.now starts.now left.now tested.old (print reads.now puts.now) }
    ensures passes { IsTrue result ↔ (All (FindsVersion versions.now) reads.now × All (IsReadByOne versions.now starts.now left.now) puts.now) }
    ensures tested { IsTested versions.now starts.now left.now tested.new (print reads.now puts.now) }
{
    tested.reads = count_found(reads, versions, tested.reads);
    if tested.reads < reads.len() {
        return false;
    }
    tested.puts = count_alone(puts, versions, starts, left, tested.puts);
    tested.puts >= puts.len()
}

// The lowest thread whose next record is ready.
fn first_ready(
    records: &[Records],
    next: &[u32],
    versions: &[u32],
    starts: &[usize],
    left: &[usize],
    tested: &mut [Tested],
) -> Option<usize>
    requires threads { length records.now ≤ length next.now }
    requires room { length records.now ≤ length tested.old }
    requires made { AllWellMade (length versions.now) records.now }
    requires counted { Counted records.now next.now versions.now starts.now left.now }
    requires tested { AllTested records.now next.now versions.now starts.now left.now tested.old }
    ensures ready { MatchOption result
        ((u : ℕ) (f : Foot) → PassesCounts records.now next.now versions.now starts.now left.now u f → ⊥)
        (λ t. (t < length records.now) × ((f : Foot) × PassesCounts records.now next.now versions.now starts.now left.now t f) × ((u : ℕ) (f : Foot) → PassesCounts records.now next.now versions.now starts.now left.now u f → t ≤ u)) }
    ensures tested { AllTested records.now next.now versions.now starts.now left.now tested.new }
{
    for thread in 0..records.len() {
        let list = &records[thread];
        let index = next[thread] as usize;
        if index < list.len() {
            if may_stand(
                list.reads(index),
                list.puts(index),
                versions,
                starts,
                left,
                &mut tested[thread],
            ) {
                return Some(thread);
            }
        }
    }
    None
}

fn raise(puts: &[Put], versions: &mut [u32])
    requires below { All (λ p. p.loc.0 < length versions.old) puts.now }
    requires rise { AllPairs (λ p q. p.loc.0 < q.loc.0) puts.now }
    requires room { All (λ p. slice_index versions.old p.loc.0 + 1 < 2 ^ 32) puts.now }
    ensures { (l : ℕ) → slice_index versions.new l ≡ version_after (put_at puts.now l) (slice_index versions.old l) }
{
    for put in puts {
        versions[put.loc.0 as usize] += 1;
    }
}

// Lets the next record of a thread stand, which passes.
fn let_stand(
    records: &[Records],
    thread: usize,
    next: &mut [u32],
    versions: &mut [u32],
    starts: &[usize],
    left: &mut [usize],
)
    requires thread { thread < length records.now }
    requires threads { length records.now ≤ length next.old }
    requires made { AllWellMade (length versions.old) records.now }
    requires counted { Counted records.now next.old versions.old starts.now left.old }
    requires passes { (f : Foot) × PassesCounts records.now next.old versions.old starts.now left.old thread f }
    requires short { records_in records.now < 2 ^ 32 }
    ensures next { slice_index next.new ≡ one_record_more thread (slice_index next.old) }
    ensures versions { (f : Foot) → foot_at records.now thread (slice_index next.old thread) ≡ Some f → slice_index versions.new ≡ raised f (slice_index versions.old) }
    ensures left { (f : Foot) → foot_at records.now thread (slice_index next.old thread) ≡ Some f → Forgets starts.now left.old left.new f.reads.items }
    ensures counted { Counted records.now next.new versions.new starts.now left.new }
{
    let list = &records[thread];
    let index = next[thread] as usize;
    next[thread] += 1;
    forget_reads(list.reads(index), starts, left);
    raise(list.puts(index), versions);
}

// Lets records stand, one by one, until none is ready, and says how many stand.
pub(crate) fn place_all(
    records: &[Records],
    order: &mut [Place],
    next: &mut [u32],
    versions: &mut [u32],
    starts: &[usize],
    left: &mut [usize],
    tested: &mut [Tested],
) -> usize
    requires threads { length records.now ≤ length next.old }
    requires tests { length records.now ≤ length tested.old }
    requires few { length records.now < 2 ^ 32 }
    requires made { AllWellMade (length versions.old) records.now }
    requires counted { Counted records.now next.old versions.old starts.now left.old }
    requires tested { AllTested records.now next.old versions.old starts.now left.old tested.old }
    requires none_stand { (u : ℕ) → slice_index next.old u ≡ 0 }
    requires no_puts { (l : ℕ) → slice_index versions.old l ≡ 0 }
    requires room { records_in records.now ≤ length order.old }
    requires short { length order.old < 2 ^ 32 }
    ensures chooses { Chooses (foot_at records.now) (λ _. 0) (λ _. 0) (take result order.new) (slice_index next.new) (slice_index versions.new) }
    ensures none { NoneReady (foot_at records.now) (slice_index next.new) (slice_index versions.new) }
    ensures within { result ≤ length order.new }
{
    let mut placed = 0;
    while let Some(thread) = first_ready(records, next, versions, starts, left, tested) {
        order[placed] = Place {
            thread: thread as u32,
            index: next[thread],
        };
        placed += 1;
        let_stand(records, thread, next, versions, starts, left);
        tested[thread] = UNTESTED;
    }
    placed
}

// Forgets what was tested.
pub(crate) fn clear_tests(tested: &mut [Tested])
    ensures { (u : ℕ) → slice_index_or tested.new u untested ≡ untested }
{
    for test in tested.iter_mut() {
        *test = UNTESTED;
    }
}

// The lowest thread with a record left.
pub(crate) fn first_left(records: &[Records], next: &[u32]) -> Option<usize>
    requires { length records.now ≤ length next.now }
    ensures { MatchOption result
        (NoneLeft (foot_at records.now) (slice_index next.now))
        (λ t. (t < length records.now) × IsFirstLeft (foot_at records.now) (slice_index next.now) t) }
{
    for thread in 0..records.len() {
        if (next[thread] as usize) < records[thread].len() {
            return Some(thread);
        }
    }
    None
}
