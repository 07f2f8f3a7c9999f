//! The top call: runs a script and writes its text, checks a text, or writes the picked ones of some texts.
#![tactic(auto)]

mod checking;
mod command_line;
mod laws;
mod picking;
mod reading;
mod run;
mod served;
mod settling;
mod status;
mod threads;
mod top;

pub use command_line::{Command, Origin, StoreName};
pub use kc_check::CheckWhy;
pub use kc_run::{Gate, OpenGate};
pub use laws::{
    legal_texts_are_accepted, pasts_have_just_the_records_behind_looks, reading_fails_for_a_cause,
    storms_write_their_summary, what_is_in_order_is_done, what_is_written_is_legal,
};
pub use served::Served;
pub use status::{LONGEST_LINE, Status};
pub use top::kcas_main;
