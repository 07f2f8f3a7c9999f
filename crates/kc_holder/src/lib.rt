//! A value that one at a time takes out and gives back. Nobody reads it where it lies, so threads share it wherever it may cross
//! threads; and each value that is taken out fits the tag with which the holder was made.
#![tactic(auto)]

mod closing;
mod holder;
mod rule;

pub use holder::{Holder, Taken};
