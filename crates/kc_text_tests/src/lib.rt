//! Tests of texts that threads share, by public calls alone; no code but these.
#![tactic(auto)]

#[cfg(test)]
mod files;
#[cfg(test)]
mod holding;
#[cfg(test)]
mod library;
#[cfg(test)]
mod rows;
#[cfg(test)]
mod threads;
