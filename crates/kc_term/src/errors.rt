//! Refused terms, with what they were to be made of.

use crate::term::Term;

/// Why two alternatives were not made a term. Both terms are given back.
#[derive(Drop)]
pub enum TermError<O> {
    /// More than `MOST_NESTED` alternatives would stand in one another.
    TooDeep { a: Term<O>, b: Term<O> },
    NoMemory { a: Term<O>, b: Term<O> },
}

/// The parts have more than `MOST_OPERATIONS` operations. They are given back.
#[derive(Drop)]
pub struct TooMany<O> {
    pub parts: Vec<Term<O>>,
}
