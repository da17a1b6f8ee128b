// Tells in plain words how a lock is checked and what was found.
#![tactic(auto)]

pub mod story;
pub mod words;

pub use story::{tell_check, tell_end, tell_failing_run};
pub use words::{Answer, Ended, Event, Found, Moment};
