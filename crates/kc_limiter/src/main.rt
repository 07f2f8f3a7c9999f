//! A rate limiter that threads share without a lock: in each window of the history a client is given so many permits at most.
#![tactic(auto)]

mod asking;
mod limiter;
mod running;

use limiter::lay_limiter;
use running::run_limiter;
use std::io;

fn main(rt: HostRuntime) -> io::Result<()> {
    let (limiter, layout) = lay_limiter(rt.alloc())?;
    let (_past, given, taken) = run_limiter(&rt, rt.alloc(), &limiter, &layout)?;
    println!(rt; "permits given: {given}")?;
    println!(rt; "permits taken: {taken}")
}
