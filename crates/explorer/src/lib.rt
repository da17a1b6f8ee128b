// The explorer: decides of any transition system whether a run of it is ever late, within lent memory.
#![tactic(auto)]

mod antichain;
mod entering;
mod exploring;
mod memory;

pub use exploration::{Node, Outcome, Visit};
pub use exploring::{MOST_NODES, MOST_VISITS, explore};
