//! Values that come and go: slots that many may read and one may fill or empty, with tickets for numbers, as a store decides.
//!
//! A ticket names a slot and its life, and stands in locations, queues and caches as any number. Each location and each thread
//! that has it counts as a name; `ShelfOp` makes a name more or one less, and to move a name is no operation of the shelf. Who
//! gives the last name up, by an entry of its own, has the value, and a `Vacant`: the right to free the slot or to begin its
//! next life.
//!
//! **Which value is read**: one that was put under this very ticket, of which `Holds` says the user's fact. A slot takes a value
//! under a ticket above all that it had before, so one at most under each. Where the fact says which value has which ticket
//! (a value that keeps its own, put by `reserve` and `Pool::fill`), it is the value itself that both sides agree on.
#![tactic(auto)]

mod acts;
mod freeing;
mod handing;
mod layout;
mod operation;
mod pool;
mod reading;
mod shelf;
mod vacant;

pub use freeing::{Freed, Renewed, free, renew};
pub use handing::{Dropped, Put, drop_name, put_value};
pub use operation::{ShelfAct, ShelfOp};
pub use pool::{Holds, Pool};
pub use reading::{Read, read_at};
pub use shelf::{MOST_NAMES, Shelf};
pub use vacant::Vacant;
