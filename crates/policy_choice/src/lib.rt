// The policy that a command line asks for.
#![tactic(auto)]

pub mod choose;
mod eight;
pub mod wrong_count;

pub use choose::choose_policy;
pub use wrong_count::WrongCount;
