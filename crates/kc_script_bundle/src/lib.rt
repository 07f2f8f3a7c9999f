//! Bundles: scripts as data. What their commands mean, the values they open with, and the lines that show a store.
#![tactic(auto)]

mod bundle;
mod cancel;
mod content;
mod laws;
mod live;
mod object;
mod operation;
mod place;
mod start;
mod state;

pub use bundle::{Bundle, MOST_COMMANDS, MOST_THREADS};
pub use cancel::Cancel;
pub use laws::{
    cancels_set_their_flag, commands_leave_the_living, contents_are_one, ends_take_one_away, fits,
    flags_lie_apart, keeps_well_formed, opens_well_formed, shows_its_contents,
};
pub use live::{LIVE_BITS, cleared, is_flagged, live_threads};
pub use object::Object;
pub use operation::{Command, Op};
pub use place::cells;
pub use start::opening;
pub use state::{put_state, write_object, write_state};
