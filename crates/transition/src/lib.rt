// Transition systems: states, numbered events that lead on or are refused, and runs of them.
#![tactic(auto)]

pub mod refusal;
pub mod run;
pub mod system;

pub use refusal::Refusal;
pub use run::Run;
pub use system::System;
