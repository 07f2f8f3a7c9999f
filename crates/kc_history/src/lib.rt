//! The records of a run, their canonical order, and the lines that show both.
#![tactic(auto)]

mod arranging;
mod counting;
mod laws;
mod placing;
mod prints;
mod record;
mod records;
mod replaying;
mod text;

pub use arranging::{Cycle, Room, are_well_made, arrange};
pub use laws::{
    arranging_ends_in_one_way, canonical_is_legal, entries_are_records, looks_can_be_left,
    one_order_is_canonical,
};
pub use record::{Head, Mark, Place, Record};
pub use records::Records;
pub use replaying::replay;
pub use text::{put_text, write_reply_line, write_text};
