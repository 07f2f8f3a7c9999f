//! Tests of the libraries on which all others stand, by public calls alone.
#![tactic(auto)]

#[cfg(test)]
mod asserts;
#[cfg(test)]
mod model;
#[cfg(test)]
mod term;
#[cfg(test)]
mod words;
#[cfg(test)]
mod xt;
