//! The two files of a run on texts: one has a text a line, the other the numbers of texts, one a line.
#![tactic(auto)]

mod files;
mod lines;
mod worked;

pub use files::{picks_of, texts_of};
pub use worked::files_worked;

/// The most picks that a file may have.
pub const MOST_PICKS: u32 = 65_536;
