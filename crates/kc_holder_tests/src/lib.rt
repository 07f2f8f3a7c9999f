//! Tests of a holder, by public calls alone.
#![tactic(auto)]

#[cfg(test)]
mod threads;
