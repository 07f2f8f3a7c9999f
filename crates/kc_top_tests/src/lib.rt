//! Tests of the top call over a source.
#![tactic(auto)]

#[cfg(test)]
mod asserts;
#[cfg(test)]
mod cancels;
#[cfg(test)]
mod grown;
#[cfg(test)]
mod limits;
#[cfg(test)]
mod runs;
#[cfg(test)]
mod storms;
#[cfg(test)]
mod threads;
