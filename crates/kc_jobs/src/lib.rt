//! What the threads of a scheduler do with its jobs, each in one step, made of the parts of kc_compose: a client submits and
//! cancels, a clock lets jobs run, and workers start and end them.
#![tactic(auto)]

mod jobs;

pub use jobs::{
    Begin, CANCELLED, DONE, RUNNING, WAITING, cancel_job, end_job, release_job, start_job,
    submit_job,
};
