//! Two threads that transfer, a view of what they left, and the history.

ghost use Rattle.std.specs.Prelude.{◌≡◌, ◌≤◌, ◌<◌, ◌*◌, IfOk, replicate};
ghost use Rattle.kc_keep.specs.Only.{Serves};
ghost use Rattle.kc_store.specs.Knows.{OpensWith};
ghost use Rattle.kc_store.specs.Views.{opened_caller};
ghost use Rattle.kc_sums.specs.Sums.{IsBank, IsOfBank};
ghost use Rattle.kc_sums.specs.Views.{HasTotalThroughout};

use crate::bank::Bank;
use crate::reading::read_all;
use crate::transferring::transfer;
use kc_keep::{both_callers, commit_kept, finish_kept, serving_adds_up};
use kc_model::Loc;
use kc_store::{Caller, Past, Store, what_is_known_stays_known};
use std::alloc::Global;
use std::sync::Wait;
use std::thread::Threads;
use std::{io, thread};

// How often each thread transfers.
const ROUNDS: u32 = 100;

// How much it transfers each time.
const AMOUNT: u32 = 7;

/// Two threads transfer between the first two accounts, each in its own direction, and then all accounts are viewed: what is
/// left, and what all have together.
pub fn run_bank<R: Threads + Wait + Sync>(
    rt: &R,
    alloc: Global,
    bank: &Bank,
) -> io::Result<(Past, u32)>
    requires { IsBank bank.now }
    ensures throughout { IfOk result (λ t. HasTotalThroughout bank.now t.0) }
    ensures sum { IfOk result (λ t. t.1 ≡ bank.now.accounts * bank.now.each) }
{
    let (store, first, second) = bank.open(alloc)?;
    let shared = &store;
    let (first, second) = thread::join(
        rt,
        move || transfer_all(rt, shared, first, bank, Loc(0), Loc(1)),
        move || transfer_all(rt, shared, second, bank, Loc(1), Loc(0)),
    );
    view_and_finish(rt, alloc, bank, store, first, second)
}

// A view of all accounts by the first caller, and what is left.
fn view_and_finish<R: Wait>(
    rt: &R,
    alloc: Global,
    bank: &Bank,
    store: Store,
    mut first: Caller,
    second: Caller,
) -> io::Result<(Past, u32)>
    requires bank { IsBank bank.now }
    requires opens { OpensWith (replicate bank.now.accounts bank.now.each) (replicate bank.now.accounts 0) 2 store }
    requires first { Serves (IsOfBank bank.now) (opened_caller store 0) first }
    requires second { Serves (IsOfBank bank.now) (opened_caller store 1) second }
    ensures throughout { IfOk result (λ t. HasTotalThroughout bank.now t.0) }
    ensures sum { IfOk result (λ t. t.1 ≡ bank.now.accounts * bank.now.each) }
{
    serving_adds_up(bank);
    what_is_known_stays_known();
    let sum = read_all(rt, &store, &mut first, bank)?;
    let Ok(callers) = both_callers(alloc, first, second) else {
        return Err(io::ErrorKind::OutOfMemory.into());
    };
    Ok((finish_kept(bank, store, callers), sum))
}

// Transfers so often from one account to another.
fn transfer_all<R: Wait>(
    rt: &R,
    store: &Store,
    mut caller: Caller,
    bank: &Bank,
    from: Loc,
    to: Loc,
) -> Caller
    requires caller { caller.of ≡ store.now }
    requires bank { IsBank bank.now }
    requires size { bank.now.accounts ≤ store.now.locations }
    requires from { from.0 < bank.now.accounts }
    requires to { to.0 < bank.now.accounts }
    ensures { Serves (IsOfBank bank.now) caller result }
{
    serving_adds_up(bank);
    for _ in 0..ROUNDS {
        commit_kept(rt, store, &mut caller, bank, &transfer(from, to, AMOUNT));
    }
    caller
}
