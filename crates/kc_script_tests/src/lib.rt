//! Tests of scripts: of reading and printing them, of what their objects show, and of storms.
#![tactic(auto)]

#[cfg(test)]
mod asserts;
#[cfg(test)]
mod parts;
#[cfg(test)]
mod printing;
#[cfg(test)]
mod reading;
#[cfg(test)]
mod states;
#[cfg(test)]
mod storm;
