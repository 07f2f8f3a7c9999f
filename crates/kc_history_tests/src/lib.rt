//! Tests of records and of their canonical order, by public calls alone.
#![tactic(auto)]

#[cfg(test)]
mod asserts;
#[cfg(test)]
mod records;
