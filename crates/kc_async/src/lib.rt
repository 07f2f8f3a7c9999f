//! Commits that a task waits for, and not a thread.
//!
//! A task that would wait leaves its waker at a bell, with what it has read. Who puts there rings behind it, so all commits of such
//! a store go by these futures, or ring. A future holds no more than a caller and a place at its bell, and gives both back when it is
//! dropped.
#![tactic(auto)]

mod attempt;
mod bells;
mod by_turns;
mod committed;
mod committing;
mod waiting;

pub use bells::{Bell, Bells};
pub use by_turns::ByTurns;
pub use committed::Committed;
pub use committing::Committing;
