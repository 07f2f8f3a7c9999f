//! Tests of threads that run commands on a store, by public calls alone.
#![tactic(auto)]

#[cfg(test)]
mod running;
