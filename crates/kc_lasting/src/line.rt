//! What is known of eras: of each its line on the roll, and of one that some handle has not left yet how it ended.

use kc_roll::Writes;
use kc_store::{Note, Store};
use std::marker::Brand;

/// An era: how the one before it ended, and its store. No value of it is made.
pub struct Line {
    pub ended: Option<Note>,
    pub store: Option<Store>,
}

impl Writes<Line> for Brand {
    ghost use Rattle.kc_lasting.specs.Eras.{no_line};

    ghost next = { no_line };
}

/// How an era ended.
#[derive(Drop)]
pub struct End {
    // What was known at the cut, or more.
    pub(crate) note: Note,
    // The version of each location there.
    pub(crate) versions: Vec<u32>,
    // The number of the era.
    pub(crate) era: u64,
    // How many handles have yet to leave it.
    pub(crate) leaving: u32,
}
