//! Laws of a store that lasts: its eras are one history. No code but these.
#![tactic(auto)]

mod laws;
mod lives;

pub use laws::{
    entries_of_eras_stand_in_it, few_commits_wear_nothing_out, replies_hold_in_the_one_history,
    shows_one_history, the_eras_are_one_history, what_was_shown_stands_in_the_one_history,
};
pub use lives::{lives_are_commits, lives_suffice, tries_begin_few_commits};
