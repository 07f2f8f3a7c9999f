//! What a run of a script is, its text, and the laws of runs; and a command of a thread as a transaction.
#![tactic(auto)]

mod ask;
mod laws;
pub mod worked;

pub use ask::Ask;
pub use laws::{
    commits_of_one_entry_are_their_records, histories_are_runs, looks_can_be_left_out,
    orders_determine_runs, runs_are_legal, runs_stay_well_formed,
};
