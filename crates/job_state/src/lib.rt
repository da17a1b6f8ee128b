// States of all jobs, and what a release and a tick do to them.
#![tactic(auto)]

mod job_closures;
pub mod job_tests;
pub mod state;

pub use state::State;
