// Tracing: the events that lead to a visit, read off the visits that exploring has written.
#![tactic(auto)]

mod tracing;

pub use tracing::trace;
