//! Lines of a script: their words, names and numbers, the tests of a line that look at its words alone, and what can be wrong.
#![tactic(auto)]

mod complaint;
mod fault;
mod line;
mod words;

pub use complaint::Complaint;
pub use fault::{LONGEST_WORDS, Limit, ScriptError, Why};
pub use line::{counted, number_to, positive_to, wants, word_at};
pub use words::{as_name, first_line, is_skipped, lines_of, number_of, split_into};
