//! Texts that threads share in place, named by numbers in locations, and given up where nothing names or leases them.
#![tactic(auto)]

mod acts;
mod burying;
mod committing;
mod laws;
mod layout;
mod operation;
mod pool;
mod reading;
mod text;
mod texts;

pub use burying::{Buried, bury_text};
pub use laws::{keeps_well_formed, replies_say_what_stood, touches_its_own_cells};
pub use operation::{TextAct, TextOp};
pub use pool::{PoolError, TextPool};
pub use reading::{TextRead, read_text};
pub use text::{MOST_BYTES, Text};
pub use texts::{BURIED, MOST_PLACES, MOST_TEXTS, Texts};
