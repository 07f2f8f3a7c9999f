//! Threads over a shared store.

ghost use Rattle.std.specs.Prelude.{◌≡◌, ◌<◌, ◌≤◌, All, IfOk, length, map};
ghost use Rattle.kc_history.specs.Callers.{IsBelowCallers, IsLegalFrom};
ghost use Rattle.kc_history.specs.Records.{lists_of};
ghost use Rattle.kc_model.specs.declared.footprint.TheConstants.{MOST};
ghost use Rattle.kc_run.specs.Run.{CanRunAll};
ghost use Rattle.kc_script_bundle.specs.Script.{script_of};
ghost use Rattle.kc_script_bundle.specs.State.{opening_values};
ghost use Rattle.kc_script_runs.specs.Looks.{GivesBehindLooks};
ghost use Rattle.kc_script_runs.specs.Threads.{AreRun, AreRunBy};
ghost use Rattle.kc_top.specs.Runnable.{IsRunnable};
ghost use Rattle.kc_top.specs.Served.{HaveCommits, IsServed};

use crate::command_line::StoreName;
use crate::served::Served;
use kc_history::Records;
use kc_locked::LockPast;
use kc_model::{MOST_LOCATIONS, NoMemory};
use kc_run::{Gate, KcasPast, open_kcas, open_locked, run_threads};
use kc_script_bundle::{Bundle, Command, MOST_THREADS};
use std::alloc::Global;
use std::sync::Wait;
use std::thread::Threads;

/// Runs a bundle's threads on the store of this name, opened with these values: their records, and what they were served.
pub fn run_on_store<G: Gate, R: Threads + Wait + Sync>(
    rt: &R,
    alloc: Global,
    name: StoreName,
    bundle: &Bundle,
    values: &[u32],
    gate: &G,
) -> Result<(Vec<Records>, Served), NoMemory>
    requires can { IsRunnable (script_of bundle.now) }
    requires some { 0 < length bundle.now.threads.items }
    requires values { values.now ≡ opening_values (script_of bundle.now) }
    ensures served { IfOk result (λ r. IsServed name (script_of bundle.now) (lists_of r.0.items) r.1) }
    ensures commits { IfOk result (λ r. HaveCommits (script_of bundle.now) (lists_of r.0.items)) }
{
    match name {
        StoreName::Lock => {
            let (records, past) = run_locked(
                rt,
                alloc,
                values,
                &bundle.threads,
                bundle.limit,
                gate,
            )?;
            Ok((records, Served::Lock(past)))
        }
        StoreName::Kcas => {
            let (records, past) = run_kcas(rt, alloc, values, &bundle.threads, bundle.limit, gate)?;
            Ok((records, Served::Kcas(past)))
        }
    }
}

// Opens a store behind one lock on these values and runs the threads on it: their records, and the store's past.
fn run_locked<G: Gate, R: Threads + Wait + Sync>(
    rt: &R,
    alloc: Global,
    values: &[u32],
    threads: &[Vec<Command>],
    limit: u32,
    gate: &G,
) -> Result<(Vec<Records>, LockPast), NoMemory>
    requires values { (0 < length values.now) × (length values.now ≤ MOST_LOCATIONS) }
    requires limit { (0 < limit) × (limit ≤ MOST) }
    requires threads { (0 < length threads.now) × (length threads.now ≤ MOST_THREADS) }
    requires commands { All (λ v. CanRunAll (length values.now) v.items) threads.now }
    ensures opening { IfOk result (λ r. r.1.opening ≡ values.now) }
    ensures legal { IfOk result (λ r. IsLegalFrom values.now r.1.history) }
    ensures run { IfOk result (λ r. AreRun limit (length values.now) 0 r.1.history (map (λ v. v.items) threads.now) (lists_of r.0.items)) }
    ensures nobody_else { IfOk result (λ r. IsBelowCallers (length threads.now) r.1.history) }
{
    let (store, passes) = open_locked(alloc, values, threads)?;
    match run_threads(rt, alloc, threads, limit, store, passes, gate) {
        Ok(ran) => Ok(ran),
        Err(_) => Err(NoMemory),
    }
}

// The same on the lock-free store, whose commits come behind looks.
fn run_kcas<G: Gate, R: Threads + Wait + Sync>(
    rt: &R,
    alloc: Global,
    values: &[u32],
    threads: &[Vec<Command>],
    limit: u32,
    gate: &G,
) -> Result<(Vec<Records>, KcasPast), NoMemory>
    requires values { (0 < length values.now) × (length values.now ≤ MOST_LOCATIONS) }
    requires limit { (0 < limit) × (limit ≤ MOST) }
    requires threads { (0 < length threads.now) × (length threads.now ≤ MOST_THREADS) }
    requires commands { All (λ v. CanRunAll (length values.now) v.items) threads.now }
    ensures opening { IfOk result (λ r. r.1.opening ≡ values.now) }
    ensures legal { IfOk result (λ r. IsLegalFrom values.now r.1.history) }
    ensures run { IfOk result (λ r. AreRunBy GivesBehindLooks limit (length values.now) 0 r.1.history (map (λ v. v.items) threads.now) (lists_of r.0.items)) }
    ensures nobody_else { IfOk result (λ r. IsBelowCallers (length threads.now) r.1.history) }
{
    let (store, passes) = open_kcas(alloc, values, threads)?;
    match run_threads(rt, alloc, threads, limit, store, passes, gate) {
        Ok(ran) => Ok(ran),
        Err(_) => Err(NoMemory),
    }
}
