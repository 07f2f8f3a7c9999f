//! A kitchen: a cook and a waiter, each a thread, share orders and a hatch without a lock.
#![tactic(auto)]

mod kitchen;
mod serving;

use kitchen::lay_kitchen;
use serving::serve;
use std::io;

fn main(rt: HostRuntime) -> io::Result<()> {
    let (kitchen, layout) = lay_kitchen(rt.alloc())?;
    serve(&rt, rt.alloc(), &kitchen, &layout)
}
