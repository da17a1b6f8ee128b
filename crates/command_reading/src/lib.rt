// The words behind a command, taken up one by one.
#![tactic(auto)]

pub mod bounds;
pub mod misuse;
pub mod reading;
pub mod verb;
