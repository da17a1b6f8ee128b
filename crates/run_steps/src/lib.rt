// What a run answers to each event of a list, and the state after it.
#![tactic(auto)]

pub mod recording;
pub mod step;

pub use recording::record_steps;
pub use step::Step;
