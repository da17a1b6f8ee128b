// Verdicts in words, for people and for scripts.
#![tactic(auto)]

mod grounds;
mod lines;

pub use grounds::Grounds;
pub use lines::{AnswerLine, NumberLine};
