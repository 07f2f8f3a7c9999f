//! Tests of the checker of printed texts; no code but these.
#![tactic(auto)]

#[cfg(test)]
mod texts;
