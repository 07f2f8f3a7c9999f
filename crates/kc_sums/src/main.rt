//! A bank on a store that threads share without a lock: whatever they transfer, all accounts together have what they opened with,
//! at each place of the history, and whoever views them sees it.
#![tactic(auto)]

mod bank;
mod reading;
mod running;
mod transferring;

use bank::Bank;
use running::run_bank;
use std::io;

fn main(rt: HostRuntime) -> io::Result<()> {
    let bank = Bank {
        accounts: 4,
        each: 1000,
    };
    let (_past, sum) = run_bank(&rt, rt.alloc(), &bank)?;
    println!(rt; "all accounts have {sum}")
}
