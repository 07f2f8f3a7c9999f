//! Whether a printed text is that of a legal history of a script.
#![tactic(auto)]

mod check;
mod error;
mod holding;
mod laws;
mod lines;
mod matching;
mod numbers;
mod opening;
mod ordering;
mod parting;
mod reading;
mod replaying;
mod walking;

pub use check::{MOST_TEXT, check_text};
pub use error::{CheckError, CheckWhy};
pub use laws::{
    faults_are_one, no_front_is_wrong, texts_have_their_parts_in_one_way,
    texts_of_runs_fail_no_test, what_comes_is_a_text, what_comes_is_legal,
};
