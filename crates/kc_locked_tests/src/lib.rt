//! Tests of the store behind one lock, by public calls alone.
#![tactic(auto)]

#[cfg(test)]
mod commits;
#[cfg(test)]
mod one;
#[cfg(test)]
mod waking;
#[cfg(test)]
mod watched;
