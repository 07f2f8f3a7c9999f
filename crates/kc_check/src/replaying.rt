//! The records that the places of a text make, one after another on a plain store. Of each the footprint is kept.

ghost use Rattle.std.specs.Prelude.{◌≡◌, ◌+◌, ◌<◌, ◌≤◌, ℕ, [], true, false, All, IfNone, IfSome, length, slice_index_or};
ghost use Rattle.kc_history.specs.Records.{lists_of};
ghost use Rattle.kc_model.specs.Store.{store_of};
ghost use Rattle.kc_model.specs.declared.footprint.TheConstants.{LAST_VERSION, MOST};
ghost use Rattle.kc_script_bundle.specs.Live.{IsThreadNumber};
ghost use Rattle.kc_script_bundle.specs.declared.bundle.TheConstants.{MOST_COMMANDS, MOST_THREADS};
ghost use Rattle.kc_xt.specs.Commit.{run_on};
ghost use Rattle.kc_xt.specs.Meaning.{limited, retried};
ghost use Rattle.kc_check.specs.Ages.{IsYoung};
ghost use Rattle.kc_check.specs.Parts.{IsThreadPlace};
ghost use Rattle.kc_check.specs.Replays.{AddsRecord, AddsAt, AllCanAsk, CanAsk, CommitsInReplay, CommitsIn, KeepFirst, TakesOne, TouchesFew, WaitsAt, WaitsIn, commands_of, counts};

use kc_history::{Head, Mark, Place, Records};
use kc_loc::LocOp;
use kc_model::{Answer, Footprint, Loc, MOST_LOCATIONS, PlainStore};
use kc_script_bundle::Command;
use kc_script_runs::Ask;
use kc_xt::{Room, Transact, Trial, Went, commit_over};

// The location of live threads.
const LIVE: Loc = Loc(0);

/// Room for one commit, what came of it, its footprint, and the head of its record.
#[derive(Drop)]
pub(crate) struct Desk {
    room: Room,
    trial: Trial,
    footprint: Footprint,
    pub head: Head,
}

impl Desk {
    pub(crate) fn new() -> Desk {
        Desk {
            room: Room::new(),
            trial: Trial::new(),
            footprint: Footprint::new(),
            head: Head {
                thread: 0,
                mark: Mark::End,
                answer: Answer::TooLarge,
            },
        }
    }
}

// Commits the transaction, and leaves its footprint on the desk. Where it has to wait, nothing was put, and there is no
// answer.
fn commit_to<T: Transact>(
    store: &mut PlainStore,
    desk: &mut Desk,
    transaction: &T,
    age: u32,
) -> Option<Answer>
    requires fit { T.is_fit transaction.now }
    requires within { T.end transaction.now ≤ length store.old }
    requires young { IsYoung age (store_of store.old) }
    requires few { age < LAST_VERSION }
    ensures commits { IfSome result (λ a. CommitsInReplay (limited (T.most transaction.now) (T.meaning transaction.now)) (store_of store.old) (store_of store.new) a desk.new.footprint) }
    ensures young { IfSome result (λ _. IsYoung (age + 1) (store_of store.new)) }
    ensures waits { IfNone result ((run_on (limited (T.most transaction.now) (T.meaning transaction.now)) (store_of store.old)).outcome ≡ retried) }
    ensures size { length store.new ≡ length store.old }
{
    prove!(store.len() as usize <= MOST_LOCATIONS);
    commit_over(
        store,
        &mut desk.room,
        transaction,
        &mut desk.trial,
        &mut desk.footprint,
    );
    match desk.trial.went {
        Went::Done => Some(Answer::Reply(desk.trial.reply)),
        Went::TooLarge => Some(Answer::TooLarge),
        Went::Later => None,
        Went::Busy => unreachable!("a plain store is never busy"),
        Went::Worn(_) => unreachable!("no location is at its last version"),
    }
}

// Commits the transaction and adds its footprint; the head of its record is left on the desk. Where it has to wait,
// nothing was put or added, and the answer is `false`.
fn add_commit<T: Transact>(
    store: &mut PlainStore,
    desk: &mut Desk,
    transaction: &T,
    thread: u32,
    mark: Mark,
    records: &mut Records,
    age: u32,
) -> bool
    requires fit { T.is_fit transaction.now }
    requires within { T.end transaction.now ≤ length store.old }
    requires young { IsYoung age (store_of store.old) }
    requires few { age < LAST_VERSION }
    requires spare { records.old.spare ≡ 0 }
    requires bare { 0 < records.old.bare }
    requires lines { TouchesFew records.old.limit (limited (T.most transaction.now) (T.meaning transaction.now)) }
    ensures adds { result ≡ true → AddsRecord (limited (T.most transaction.now) (T.meaning transaction.now)) (store_of store.old) (store_of store.new) thread mark desk.new.head records.old records.new }
    ensures young { result ≡ true → IsYoung (age + 1) (store_of store.new) }
    ensures waits { result ≡ false → (run_on (limited (T.most transaction.now) (T.meaning transaction.now)) (store_of store.old)).outcome ≡ retried }
    ensures size { length store.new ≡ length store.old }
{
    match commit_to(store, desk, transaction, age) {
        Some(answer) => {
            records.add_print(&desk.footprint);
            desk.head = Head {
                thread,
                mark,
                answer,
            };
            true
        }
        None => false,
    }
}

// Commits the next command of a thread, or its end behind them, and adds its footprint; the head of its record is left
// on the desk. Where it has to wait, nothing was put or added, and the answer is `false`.
fn replay_in(
    commands: &[Command],
    limit: u32,
    thread: u32,
    store: &mut PlainStore,
    desk: &mut Desk,
    records: &mut Records,
    age: u32,
) -> bool
    requires can { All (CanAsk (length store.old)) commands.now }
    requires some { 0 < length store.old }
    requires limit { (0 < limit) × (limit ≤ MOST) }
    requires thread { IsThreadNumber thread }
    requires short { length commands.now ≤ MOST_COMMANDS }
    requires index { length records.old.items ≤ length commands.now }
    requires room { TakesOne limit records.old }
    requires young { IsYoung age (store_of store.old) }
    requires few { age < LAST_VERSION }
    ensures commits { result ≡ true → CommitsIn limit thread commands.now (store_of store.old) (store_of store.new) desk.new.head records.old records.new }
    ensures waits { result ≡ false → WaitsIn limit thread commands.now (length records.old.items) (store_of store.old) }
    ensures young { result ≡ true → IsYoung (age + 1) (store_of store.new) }
    ensures size { length store.new ≡ length store.old }
{
    let index = records.len();
    if index == commands.len() {
        let end = LocOp::Decr(LIVE);
        return add_commit(store, desk, &end, thread, Mark::End, records, age);
    }
    let ask = Ask {
        command: &commands[index],
        live: LIVE,
        thread,
        limit,
    };
    let mark = Mark::Command(index as u32 + 1);
    add_commit(store, desk, &ask, thread, mark, records, age)
}

/// Commits what a place names, the next of its thread, and adds its footprint; the head of its record is left on the desk.
/// Where it has to wait, nothing was put, and the answer is `false`.
pub(crate) fn replay_at(
    threads: &[Vec<Command>],
    limit: u32,
    place: Place,
    store: &mut PlainStore,
    desk: &mut Desk,
    records: &mut [Records],
    age: u32,
) -> bool
    requires can { AllCanAsk (length store.old) threads.now }
    requires some { 0 < length store.old }
    requires limit { (0 < limit) × (limit ≤ MOST) }
    requires few_threads { length threads.now ≤ MOST_THREADS }
    requires short { All (λ v. length v.items ≤ MOST_COMMANDS) threads.now }
    requires place { IsThreadPlace (commands_of threads.now) place }
    requires turn { place.index ≡ counts (lists_of records.old) place.thread }
    requires room { KeepFirst limit (commands_of threads.now) records.old }
    requires young { IsYoung age (store_of store.old) }
    requires few { age < LAST_VERSION }
    ensures adds { result ≡ true → AddsAt limit (commands_of threads.now) place (store_of store.old) (store_of store.new) desk.new.head records.old records.new }
    ensures waits { result ≡ false → WaitsAt limit (commands_of threads.now) place (store_of store.old) }
    ensures young { result ≡ true → IsYoung (age + 1) (store_of store.new) }
    ensures size { length store.new ≡ length store.old }
{
    let thread = place.thread as usize;
    let list = &mut records[thread];
    replay_in(
        &threads[thread],
        limit,
        place.thread + 1,
        store,
        desk,
        list,
        age,
    )
}
