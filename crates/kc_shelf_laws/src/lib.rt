//! Laws of histories with operations on a shelf: the count of a ticket is the names of callers and of places, a ticket names
//! one life, and what is over is over. No code but these.
#![tactic(auto)]

mod laws;

pub use laws::{
    a_life_is_one, callers_keep_the_names, entries_turn_names, names_stand_in_histories,
    opens_with_no_names, the_last_name_is_the_last, who_has_a_name_finds_it,
};
