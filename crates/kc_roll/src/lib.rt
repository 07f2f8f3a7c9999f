//! A list that only grows, which contracts see, and of which nothing is kept at run time but its length. What one has seen of it
//! stands at its front, for good: so of what two have seen the one begins the other.
#![tactic(auto)]

mod roll;
mod rule;

pub use roll::{Page, Roll};
pub use rule::Writes;
