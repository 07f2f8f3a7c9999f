//! Transactions one after another, and alternatives: as terms, or where they lie.
#![tactic(auto)]

mod bound;
mod either;
mod errors;
mod items;
mod laws;
mod row;
mod run;
mod term;

pub use either::Either;
pub use errors::{TermError, TooMany};
pub use laws::{
    a_row_is_a_sequence, alternatives_have_what_both_have, preserves_what_its_operations_preserve,
    touches_below_its_end, writes_where_its_operations_write,
};
pub use row::Row;
pub use term::{MOST_NESTED, MOST_OPERATIONS, Node, Term};
