//! Storms: a large script from a number, and the summary of its run.
#![tactic(auto)]

mod laws;
mod script;
mod summary;
pub mod worked;

pub use laws::{
    runs_come_to_one_state, states_are_sums, storms_are_in_order, storms_can_be_spelled,
    summaries_are_one,
};
pub use script::{COMMANDS, THREADS, storm};
pub use summary::{commits, ok_commands, put_summary, write_summary};
