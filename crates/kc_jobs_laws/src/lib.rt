//! What the acts of kc_jobs make of the jobs, whoever commits them and whatever else lies in the store.
//!
//! `Jobs` are a table of what is known of each job, and a promise of each one's end. An act of theirs says by its contract
//! what it does to each job, so that a scheduler has only to say what may become of one.
#![tactic(auto)]

mod jobs;

pub use jobs::Jobs;
