//! Laws of histories with operations on shared texts: who holds a lease, and what a burial says. No code but these.
#![tactic(auto)]

mod laws;

pub use laws::{
    entries_turn_leases, leases_may_be_handed_on, texts_stand_in_histories,
    what_callers_keep_the_history_keeps, what_is_buried_is_held_by_none,
};
