//! Threads share the lock-free store.

ghost use Rattle.std.specs.Prelude.{◌≡◌, ◌↔◌, ◌<◌, ◌≤◌, ◌⊎◌, All, Err, IfOk, length, map, true};
ghost use Rattle.kc_history.specs.Callers.{of_caller, IsBelowCallers, IsLegalFrom};
ghost use Rattle.kc_run.specs.Kcas.{AllKcDealt, BelongsTo, LastIsWorn, OpenedForCallers, values_of};
ghost use Rattle.kc_table_moves.specs.Views.{count_from};

use crate::past::KcasPast;
use crate::shared::Shared;
use kc_await::commit_waiting_into;
use kc_locked::MOST_CALLERS;
use kc_model::{Answer, Footprint, Loc, MOST_LOCATIONS, NoMemory, OpenError};
use kc_script_bundle::{Command, MOST_COMMANDS};
use kc_store::{Answered, Caller, Store};
use kc_xt::Transact;
use std::alloc::Global;
use std::marker::Model;
use std::sync::Wait;
use std::thread;

/// The lock-free store, for threads that share it: each location opened at version 0. Contracts see what those of the store do.
#[derive(Drop)]
pub struct KcShared {
    store: Store,
}

impl Model for KcShared {
    ghost use Rattle.kc_run.specs.Kcas.{OpensAtZero};
    ghost use Rattle.kc_store.specs.Views.{StoreView};

    ghost Value = { StoreView };

    ghost view = { λ s. s.store };

    ghost invariant = { λ s. OpensAtZero s.store };
}

/// A pass is a caller that has made commits that wait, and nothing else.
impl Shared for KcShared {
    ghost use Rattle.std.specs.Prelude.{true};
    ghost use Rattle.kc_run.specs.Kcas.{BelongsTo, left_in, values_of};

    type Pass = Caller;

    type Whole = KcasPast;

    ghost belongs = { BelongsTo };

    ghost callers = { λ store. store.callers };

    ghost opening = { values_of };

    ghost number = { λ caller. caller.number };

    ghost left = { left_in };

    ghost own = { λ caller. caller.own };

    ghost enters_looks = { true };

    ghost began = { λ p. p.opening };

    ghost history = { λ p. p.history };

    /// Where the store is worn it doesn't return: where a location was put as often as it has versions, or no descriptor has a life left.
    fn commit_command<R: Wait, T: Transact>(
        &self,
        rt: &R,
        caller: &mut Caller,
        transaction: &T,
        footprint: &mut Footprint,
    ) -> Answer {
        let answered = commit_waiting_into(rt, &self.store, caller, transaction, footprint);
        caller.shows();
        match answered {
            Answered::Done(reply) => Answer::Reply(reply),
            Answered::TooLarge => Answer::TooLarge,
            Answered::Later => unreachable!("a commit that waits is never answered so"),
            Answered::WornLocation(at) => stay_at(rt, caller, at),
            Answered::WornPool => stay_without_pool(rt, caller),
        }
    }

    fn finish(self, callers: Vec<Caller>) -> KcasPast
        requires passes { All (BelongsTo self) callers.items }
        requires all { map (λ c. c.number) callers.items ≡ count_from 0 self.callers }
        ensures began { result.opening ≡ values_of self }
        ensures legal { IsLegalFrom (values_of self) result.history }
        ensures own { All (λ c. of_caller c.number result.history ≡ c.own) callers.items }
        ensures nobody_else { IsBelowCallers self.callers result.history }
    {
        let KcShared { store } = self;
        KcasPast::of(store.finish(callers))
    }
}

// A location without a version left has no answer of a command, so this doesn't return. Each of its versions was put.
#[cold]
fn stay_at<R: Wait>(rt: &R, _caller: &Caller, _at: Loc) -> Answer
    requires { LastIsWorn _at.0 _caller.now }
    ensures { ⊥ }
{
    stay(rt)
}

// Nor has a pool in which no descriptor has a life left, as the caller was told.
#[cold]
fn stay_without_pool<R: Wait>(rt: &R, _caller: &Caller) -> Answer
    requires { _caller.now.worn ≡ true }
    ensures { ⊥ }
{
    stay(rt)
}

fn stay<R: Wait>(rt: &R) -> Answer
    ensures { ⊥ }
{
    for _ in rt.forever() {
        thread::yield_now();
    }
    unreachable!()
}

impl KcShared {
    /// A store with these values at version 0, and so many callers, numbered from 0.
    ///
    /// # Errors
    ///
    /// - TooManyLocs: exactly above 65,536 values
    /// - TooManyCallers: else, exactly for no caller or more than 64
    /// - NoMemory
    pub fn open(
        alloc: Global,
        values: &[u32],
        callers: u32,
    ) -> Result<(KcShared, Vec<Caller>), OpenError>
        ensures ok { IfOk result (λ r. OpenedForCallers values.now callers r.0 r.1.items) }
        ensures locations { (result ≡ Err OpenError.TooManyLocs) ↔ (MOST_LOCATIONS < length values.now) }
        ensures callers { (result ≡ Err OpenError.TooManyCallers) ↔ ((length values.now ≤ MOST_LOCATIONS) × ((callers ≡ 0) ⊎ (MOST_CALLERS < callers))) }
    {
        if values.len() > MOST_LOCATIONS {
            return Err(OpenError::TooManyLocs);
        }
        if callers == 0 {
            return Err(OpenError::TooManyCallers);
        }
        let (store, callers) = Store::open(alloc, values, callers)?;
        callers[0].shows();
        Ok((KcShared { store }, callers))
    }
}

/// A lock-free store on these values, and a caller for each thread, for `run_threads`.
///
/// # Errors
///
/// Want of memory
pub fn open_kcas(
    alloc: Global,
    values: &[u32],
    threads: &[Vec<Command>],
) -> Result<(KcShared, Vec<Caller>), NoMemory>
    requires values { length values.now ≤ MOST_LOCATIONS }
    requires threads { (0 < length threads.now) × (length threads.now ≤ MOST_CALLERS) }
    requires commands { All (λ v. length v.items ≤ MOST_COMMANDS) threads.now }
    ensures opening { IfOk result (λ r. values_of r.0 ≡ values.now) }
    ensures callers { IfOk result (λ r. length threads.now ≡ r.0.callers) }
    ensures passes { IfOk result (λ r. AllKcDealt r.0 threads.now r.1.items) }
{
    match KcShared::open(alloc, values, threads.len() as u32) {
        Ok(opened) => Ok(opened),
        Err(_) => Err(NoMemory),
    }
}
