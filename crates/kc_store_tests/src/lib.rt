//! Tests of a store that threads share with no lock, by public calls alone.
#![tactic(auto)]

#[cfg(test)]
mod asserts;
#[cfg(test)]
mod overtaken;
#[cfg(test)]
mod reading;
#[cfg(test)]
mod sole;
#[cfg(test)]
mod trying;
#[cfg(test)]
mod viewing;
