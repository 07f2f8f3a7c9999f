//! Tasks that wait for commits.
#![tactic(auto)]

#[cfg(test)]
mod dropping;
#[cfg(test)]
mod ring;
#[cfg(test)]
mod turns;
