//! The share of each thread.

ghost use Rattle.std.specs.Prelude.{◌≡◌, ◌≤◌, All, length, IfOk};
ghost use Rattle.kc_run.specs.Shares.{shares_of};

use kc_model::NoMemory;
use kc_script_bundle::{Command, MOST_COMMANDS};
use std::alloc::Global;

/// A share for each thread: its commands and one more.
pub fn shares(alloc: Global, threads: &[Vec<Command>]) -> Result<Vec<u32>, NoMemory>
    requires { All (λ v. length v.items ≤ MOST_COMMANDS) threads.now }
    ensures { IfOk result (λ v. v.items ≡ shares_of threads.now) }
{
    let mut shares = Vec::with_capacity(alloc, threads.len())?;
    for i in 0..threads.len() {
        shares.push(threads[i].len() as u32 + 1)?;
    }
    Ok(shares)
}
