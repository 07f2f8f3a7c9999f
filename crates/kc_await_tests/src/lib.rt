//! Tests of commits that wait, by public calls alone.
#![tactic(auto)]

#[cfg(test)]
mod asserts;
#[cfg(test)]
mod callers;
#[cfg(test)]
mod deadlines;
#[cfg(test)]
mod hanging;
#[cfg(test)]
mod viewing;
#[cfg(test)]
mod waiting;
