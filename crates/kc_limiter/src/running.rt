//! A thread that asks and one that works share the limiter, and what is left.

ghost use Rattle.std.specs.Prelude.{◌≡◌, ◌≤◌, ◌<◌, IfOk, length};
ghost use Rattle.kc_keep.specs.Only.{Serves};
ghost use Rattle.kc_lay.specs.Placed.{HoldsAtOpening};
ghost use Rattle.kc_limiter.specs.Limits.{GivesSo, HasCounts, HasLimiter, IsLimited, IsLimiterLaid};
ghost use Rattle.kc_limiter.specs.declared.limiter.TheConstants.{CLIENTS};
ghost use Rattle.kc_queue.specs.Meaning.{queue_cells_end};

use crate::limiter::{CLIENTS, Limiter, PERMITS};
use kc_keep::{both_callers, commit_kept, finish_served, open_for_two, serving_adds_up};
use kc_lay::Layout;
use kc_model::Reply;
use kc_queue::{QueueAct, QueueOp};
use kc_store::{Caller, Past, Store};
use std::alloc::Global;
use std::sync::Wait;
use std::thread::Threads;
use std::{io, thread};

// How many windows there are.
const WINDOWS: u32 = 3;

/// Both threads come back, and the one history shows. Beside it stand how many permits were given and how many were taken, as the
/// threads counted their replies; the contract doesn't say that the history has so many.
pub fn run_limiter<R: Threads + Wait + Sync>(
    rt: &R,
    alloc: Global,
    limiter: &Limiter,
    layout: &Layout,
) -> io::Result<(Past, u32, u32)>
    requires laid { IsLimiterLaid limiter.now }
    requires within { queue_cells_end limiter.now.granted ≤ length layout.now }
    requires opens { HoldsAtOpening (HasCounts limiter.now) layout.now }
    ensures { IfOk result (λ t. IsLimited limiter.now layout.now t.0) }
{
    let (store, client, worker) = open_for_two(alloc, layout)?;
    let shared = &store;
    let ((client, given), (worker, taken)) = thread::join(
        rt,
        move || ask_for_all(rt, shared, client, limiter),
        move || work(rt, shared, worker, limiter),
    );
    let Ok(callers) = both_callers(alloc, client, worker) else {
        return Err(io::ErrorKind::OutOfMemory.into());
    };
    let past = finish_served(limiter, layout, store, callers);
    Ok((past, given, taken))
}

// Asks for all permits of all windows, a client after another: how many were given.
fn ask_for_all<R: Wait>(
    rt: &R,
    store: &Store,
    mut caller: Caller,
    limiter: &Limiter,
) -> (Caller, u32)
    requires caller { caller.of ≡ store.now }
    requires limiter { HasLimiter limiter.now store.now.locations }
    ensures { Serves (GivesSo limiter.now) caller result.0 }
{
    serving_adds_up(limiter);
    let mut given = 0u32;
    for number in 0..WINDOWS * CLIENTS * PERMITS {
        let said = ask(rt, store, &mut caller, limiter, number % CLIENTS);
        if said == Some(Reply::Unit) {
            given = given.wrapping_add(1);
        }
    }
    (caller, given)
}

// Asks for a permit, and where it is refused waits for the next window.
fn ask<R: Wait>(
    rt: &R,
    store: &Store,
    caller: &mut Caller,
    limiter: &Limiter,
    client: u32,
) -> Option<Reply>
    requires caller { caller.old.of ≡ store.now }
    requires limiter { HasLimiter limiter.now store.now.locations }
    requires client { client < CLIENTS }
    ensures { Serves (GivesSo limiter.now) caller.old caller.new }
{
    serving_adds_up(limiter);
    let now = limiter.permit(client);
    let said = commit_kept(rt, store, caller, limiter, &now);
    if said != Some(Reply::Bool(false)) {
        return said;
    }
    let later = limiter.permit_waiting(client);
    commit_kept(rt, store, caller, limiter, &later)
}

// Takes all permits, and turns the window where all of one were taken: how many it took.
fn work<R: Wait>(rt: &R, store: &Store, mut worker: Caller, limiter: &Limiter) -> (Caller, u32)
    requires worker { worker.of ≡ store.now }
    requires limiter { HasLimiter limiter.now store.now.locations }
    ensures { Serves (GivesSo limiter.now) worker result.0 }
{
    serving_adds_up(limiter);
    let take = QueueOp {
        queue: limiter.granted,
        act: QueueAct::DeqWait,
    };
    let mut taken = 0u32;
    for number in 1..=WINDOWS * CLIENTS * PERMITS {
        if let Some(Reply::Value(_)) = commit_kept(rt, store, &mut worker, limiter, &take) {
            taken = taken.wrapping_add(1);
        }
        turn_at(rt, store, &mut worker, limiter, number);
    }
    (worker, taken)
}

// Turns the window where so many permits are all of one; behind the last window nothing is done.
fn turn_at<R: Wait>(rt: &R, store: &Store, worker: &mut Caller, limiter: &Limiter, number: u32)
    requires worker { worker.old.of ≡ store.now }
    requires limiter { HasLimiter limiter.now store.now.locations }
    ensures { Serves (GivesSo limiter.now) worker.old worker.new }
{
    serving_adds_up(limiter);
    let turn = limiter.turn();
    if number % (CLIENTS * PERMITS) == 0 {
        commit_kept(rt, store, worker, limiter, &turn);
    }
}
