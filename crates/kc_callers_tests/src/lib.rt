//! Threads that borrow the callers of a store.
#![tactic(auto)]

#[cfg(test)]
mod many;
