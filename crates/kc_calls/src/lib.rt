//! What a program in C says to a store and is told, as plain data: structures, operations on them, replies.
#![tactic(auto)]

mod acts;
mod alone;
mod call;
mod calls;
mod checks;
mod kinds;
mod laws;
mod layout;
mod object;
mod operation;
mod reply;
mod said;
mod sequence;
mod verbs;

pub use alone::{Silent, alone_on_location, first_value, told_alone};
pub use call::Call;
pub use calls::{Calls, MOST_ALTERNATIVES, MOST_CALLS};
pub use checks::are_operations;
pub use kinds::{ACCUMULATOR, CACHE, GROW, LOCATION, MVAR, PROMISE, QUEUE, STACK, TABLE};
pub use laws::{numbers_are_those_of_the_header, numbers_say_their_operation};
pub use object::{KcasObject, cells, opening};
pub use operation::KcasOp;
pub use reply::{KcasReply, tell};
