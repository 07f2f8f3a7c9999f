//! Tests of the machine of atomic steps, by public calls alone.
#![tactic(auto)]

#[cfg(test)]
mod asserts;
#[cfg(test)]
mod stepping;
