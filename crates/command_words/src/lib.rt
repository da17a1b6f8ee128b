// What the words of a command line ask for.
#![tactic(auto)]

pub mod command;
pub mod words;
