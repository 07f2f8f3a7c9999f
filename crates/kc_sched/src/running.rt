//! Four threads share the scheduler, and what is left.

ghost use Rattle.std.specs.Prelude.{◌≡◌, ◌≤◌, IfOk, length};
ghost use Rattle.kc_hash.specs.Meaning.{hash_cells_end};
ghost use Rattle.kc_keep.specs.Only.{Serves};
ghost use Rattle.kc_lay.specs.Placed.{HoldsAtOpening};
ghost use Rattle.kc_sched.specs.Sched.{GoesSo, HasJobs, HasSched, IsScheduled, IsSchedLaid};

use crate::sched::Sched;
use crate::threads::{Tally, ask, tick, work};
use kc_keep::{finish_served, four_callers, open_for_four};
use kc_lay::Layout;
use kc_store::{Caller, Past, Store};
use std::alloc::Global;
use std::sync::Wait;
use std::thread::Threads;
use std::{io, thread};

/// A client, a clock and two workers, each a thread; all come back, and the one history shows.
pub fn run_sched<R: Threads + Wait + Sync>(
    rt: &R,
    alloc: Global,
    sched: &Sched,
    layout: &Layout,
) -> io::Result<(Past, [Tally; 3])>
    requires laid { IsSchedLaid sched.now }
    requires within { hash_cells_end sched.now.jobs.states ≤ length layout.now }
    requires opens { HoldsAtOpening (HasJobs sched.now) layout.now }
    ensures { IfOk result (λ t. IsScheduled sched.now layout.now t.0) }
{
    let (store, client, clock, first, second) = open_for_four(alloc, layout)?;
    let shared = &store;
    let ((client, told, clock), (first, one, second, two)) = thread::join(
        rt,
        move ||
            requires { (client.of ≡ shared.now) × (clock.of ≡ shared.now) × HasSched sched.now shared.now.locations }
        { ask_and_tick(rt, shared, client, clock, sched) },
        move ||
            requires { (first.of ≡ shared.now) × (second.of ≡ shared.now) × HasSched sched.now shared.now.locations }
        { work_by_two(rt, shared, first, second, sched) },
    );
    let Ok(callers) = four_callers(alloc, client, clock, first, second) else {
        return Err(io::ErrorKind::OutOfMemory.into());
    };
    let past = finish_served(sched, layout, store, callers);
    Ok((past, [told, one, two]))
}

// The client beside the clock.
fn ask_and_tick<R: Threads + Wait + Sync>(
    rt: &R,
    store: &Store,
    client: Caller,
    clock: Caller,
    sched: &Sched,
) -> (Caller, Tally, Caller)
    requires client { client.of ≡ store.now }
    requires clock { clock.of ≡ store.now }
    requires sched { HasSched sched.now store.now.locations }
    ensures client { Serves (GoesSo sched.now) client result.0 }
    ensures clock { Serves (GoesSo sched.now) clock result.2 }
{
    let ((client, told), clock) = thread::join(
        rt,
        move || ask(rt, store, client, sched),
        move || tick(rt, store, clock, sched),
    );
    (client, told, clock)
}

// Both workers, side by side.
fn work_by_two<R: Threads + Wait + Sync>(
    rt: &R,
    store: &Store,
    first: Caller,
    second: Caller,
    sched: &Sched,
) -> (Caller, Tally, Caller, Tally)
    requires first { first.of ≡ store.now }
    requires second { second.of ≡ store.now }
    requires sched { HasSched sched.now store.now.locations }
    ensures first { Serves (GoesSo sched.now) first result.0 }
    ensures second { Serves (GoesSo sched.now) second result.2 }
{
    let ((first, one), (second, two)) = thread::join(
        rt,
        move || work(rt, store, first, sched),
        move || work(rt, store, second, sched),
    );
    (first, one, second, two)
}
