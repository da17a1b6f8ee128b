// Lists of numbers as a command line writes them.
#![tactic(auto)]

pub mod list;
