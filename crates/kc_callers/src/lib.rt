//! Callers that threads borrow and give back.
//!
//! A store has few callers, and threads and tasks come and go. So the callers stand in places, and who has something to commit
//! borrows one. A caller's own entries are those of its number, whoever had it.
#![tactic(auto)]

mod borrowed;
mod callers;
mod closed;
mod desk;
mod home;
mod loan;

pub use borrowed::Borrowed;
pub use callers::Callers;
pub use closed::Closed;
pub use desk::Desk;
pub use home::{Home, Idle};
pub use loan::Loan;
