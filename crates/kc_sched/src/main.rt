//! A scheduler of jobs that four threads share without a lock: a cancelled job is never started, and each job's end is told
//! once.
#![tactic(auto)]

mod running;
mod sched;
mod threads;

use running::run_sched;
use sched::lay_sched;
use std::io;

fn main(rt: HostRuntime) -> io::Result<()> {
    let (sched, layout) = lay_sched(rt.alloc())?;
    let (_past, [told, one, two]) = run_sched(&rt, rt.alloc(), &sched, &layout)?;
    let settled = told
        .settled
        .wrapping_add(one.settled)
        .wrapping_add(two.settled);
    println!(rt; "jobs submitted: {}", told.submitted)?;
    println!(rt; "ends told: {}", told.told)?;
    println!(rt; "cancelled or done: {settled}")?;
    println!(rt; "results, with those of the cancelled: {}", told.results)
}
