//! Threads share the store behind one lock.

ghost use Rattle.std.specs.Prelude.{◌≡◌, ◌<◌, ◌≤◌, All, length, map, IfOk};
ghost use Rattle.kc_history.specs.Callers.{of_caller, IsBelowCallers, IsLegalFrom};
ghost use Rattle.kc_table_moves.specs.Views.{count_from};
ghost use Rattle.kc_run.specs.Locked.{AllDealt};

use crate::shared::Shared;
use crate::shares::shares;
use kc_locked::{LockPass, LockPast, LockedStore, MOST_CALLERS};
use kc_model::{Answer, Footprint, MOST_LOCATIONS, NoMemory};
use kc_script_bundle::{Command, MOST_COMMANDS};
use kc_xt::Transact;
use std::alloc::Global;
use std::sync::Wait;

impl Shared for LockedStore {
    ghost use Rattle.std.specs.Prelude.{◌≡◌, false};

    type Pass = LockPass;

    type Whole = LockPast;

    ghost belongs = { λ store pass. pass.table ≡ store.table };

    ghost callers = { λ store. store.callers };

    ghost opening = { λ store. store.opening };

    ghost number = { λ pass. pass.caller };

    ghost left = { λ pass. pass.left };

    ghost own = { λ pass. pass.own };

    ghost enters_looks = { false };

    ghost began = { λ past. past.opening };

    ghost history = { λ past. past.history };

    fn commit_command<R: Wait, T: Transact>(
        &self,
        rt: &R,
        pass: &mut LockPass,
        transaction: &T,
        footprint: &mut Footprint,
    ) -> Answer {
        self.commit_waiting_into(rt, pass, transaction, footprint)
    }

    fn finish(self, passes: Vec<LockPass>) -> LockPast
        requires passes { All (λ p. p.table ≡ self.table) passes.items }
        requires all { map (λ p. p.caller) passes.items ≡ count_from 0 self.callers }
        ensures began { result.opening ≡ self.opening }
        ensures legal { IsLegalFrom self.opening result.history }
        ensures own { All (λ p. of_caller p.caller result.history ≡ p.own) passes.items }
        ensures nobody_else { IsBelowCallers self.callers result.history }
    {
        LockedStore::finish(self, passes)
    }
}

/// A store on these values, and a pass for each thread with a share of its commands and one more, for `run_threads`.
///
/// # Errors
///
/// Want of memory
pub fn open_locked(
    alloc: Global,
    values: &[u32],
    threads: &[Vec<Command>],
) -> Result<(LockedStore, Vec<LockPass>), NoMemory>
    requires values { length values.now ≤ MOST_LOCATIONS }
    requires threads { (0 < length threads.now) × (length threads.now ≤ MOST_CALLERS) }
    requires commands { All (λ v. length v.items ≤ MOST_COMMANDS) threads.now }
    ensures opening { IfOk result (λ r. r.0.opening ≡ values.now) }
    ensures callers { IfOk result (λ r. length threads.now ≡ r.0.callers) }
    ensures passes { IfOk result (λ r. AllDealt r.0 threads.now r.1.items) }
{
    let shares = shares(alloc, threads)?;
    match LockedStore::open(alloc, values, shares.as_slice()) {
        Ok(opened) => Ok(opened),
        Err(_) => Err(NoMemory),
    }
}
