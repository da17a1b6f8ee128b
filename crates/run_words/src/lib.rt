// Modes and jobs in short words, as scripts read them.
#![tactic(auto)]

mod words;

pub use words::{JobWord, ModeWord, StateWords};
