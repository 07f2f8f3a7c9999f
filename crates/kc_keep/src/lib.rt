//! From what threads commit to what holds of the one history of a store: an invariant at each of its places, and a relation
//! between the values before and behind each of its entries.
//!
//! A user names an `Invariant`: what holds of the values, and which meanings are committed, each of which keeps it. A thread's
//! contract says `CommitsOnly` of all that it has committed, which `told_of`, `waited_of` and `viewed_of` give for each call and
//! `commits_add_up` puts together; or `Serves`, which `commit_kept` gives and `serving_adds_up` puts together. When all callers came
//! back, `finish_kept` says that the invariant holds throughout.
#![tactic(auto)]

mod finishing;
mod invariant;
mod laws;
mod opening;
mod telling;

pub use finishing::{finish_kept, finish_served, finish_stepped};
pub use invariant::{Invariant, Stepping};
pub use laws::{holds_throughout, steps_throughout, views_see_it_hold};
pub use opening::{both_callers, four_callers, open_for_four, open_for_two};
pub use telling::{
    commit_kept, commit_replied, commits_add_up, serving_adds_up, told_of, view_kept, viewed_of,
    waited_of,
};
