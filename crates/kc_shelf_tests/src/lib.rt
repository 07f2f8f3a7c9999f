//! Threads that put, name, move, read and give up values.
#![tactic(auto)]

#[cfg(test)]
mod cache;
#[cfg(test)]
mod lives;
#[cfg(test)]
mod requests;
#[cfg(test)]
mod shop;
