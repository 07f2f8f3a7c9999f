//! The numbers of a script's runs fit 32 bits.
#![tactic(auto)]

mod laws;

pub use laws::answers_of_runs_fit;
