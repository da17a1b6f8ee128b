// Where a table is read from, as a word of a command line names it.
#![tactic(auto)]

mod source;

pub use source::{Source, is_option};
