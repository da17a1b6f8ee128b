// Checks a lock: explores it, and tells in the lock's words what was found.
#![tactic(auto)]

pub mod check;
pub mod finding;

pub use check::check_lock;
pub use finding::{Finding, Verdict};
