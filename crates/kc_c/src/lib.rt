//! The store as a static library for C: the handle that C keeps of a caller, and the calls that C makes with it.
//!
//! Each call answers by number, of `answers`. One that is refused changes nothing that the handle holds.
#![tactic(auto)]

mod answers;
mod client;
mod handle;
mod handles;
mod laws;
mod opening;
mod reading;
mod reads;
mod standing;
mod structures;
mod tries;
mod trying;
mod viewing;
mod views;
mod waiting;
mod waits;
