//! Two threads read picked texts, each at a place of its own.
#![tactic(auto)]

mod both;
mod laws;
mod opening;
mod picking;
mod reading;
mod writing;

pub use both::read_both;
pub use laws::{lines_are_the_picked_ones, picks_keep_to_the_operations};
pub use opening::{blank_lines, open_for_two};
pub use picking::read_picks;
pub use reading::{ReadPicks, read_by_two};
pub use writing::write_lines;
