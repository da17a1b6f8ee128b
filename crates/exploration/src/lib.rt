// Exploring a transition system: what it keeps, how it ends, and what its end tells.
#![tactic(auto)]

pub mod claims;
pub mod node;
pub mod outcome;
pub mod trace_refusal;

pub use node::{Node, Visit};
pub use outcome::Outcome;
pub use trace_refusal::TraceRefusal;
