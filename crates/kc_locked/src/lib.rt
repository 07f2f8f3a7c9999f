//! The store behind one lock.
#![tactic(auto)]

mod held;
mod history;
mod lock;
mod rule;
mod store;

pub use held::{Held, MOST_COMMITS, Waits, answer_of};
pub use store::{LockPass, LockPast, LockedStore, MOST_CALLERS};
