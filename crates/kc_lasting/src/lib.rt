//! A store that lasts. After so many commits of its own, or where it is told that something is worn out, a handle cuts the store off:
//! no commit in it counts from then on, and all go on in a new one, opened on what stood there. What a handle is told it is told of
//! some era, and that is proved. That a cut comes before a location has had its last version, or a descriptor its last life, is no
//! clause: it rests on how many commits each handle makes in an era.
//!
//! Behind the locations that transactions touch the store has one more, the flag, which is put before a cut is made. Each handle reads
//! it behind each call. As long as it is as it was, all that the handle knew in its era stands before the cut that comes; else the
//! handle learns what is known at the cut, and compares one put.
//!
//! The eras are lines of a roll, of which each handle has seen a front, and one handle at a time has them out. So all know of one chain
//! of eras, and what a handle is told (`ToldSo`, `ToldInVain`, `specs/Told.antt`) is of the history with which an era of it ends.
#![tactic(auto)]

mod caller;
mod client;
mod crossing;
mod cutting;
mod era;
mod eras;
mod finishing;
mod handle;
mod laws;
mod line;
mod opening;
mod renewing;
mod settling;
mod shared;
mod waiting;

pub use caller::Attempt;
pub use handle::LastingCaller;
pub use laws::{keepers_put_the_flag_alone, one_put_tells_the_side};
pub use opening::{open, open_at};
