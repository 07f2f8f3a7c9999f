//! Tests of a table that threads share.
#![tactic(auto)]

#[cfg(test)]
mod asserts;
#[cfg(test)]
mod contending;
#[cfg(test)]
mod stopped;
#[cfg(test)]
mod swaps;
#[cfg(test)]
mod tests;
