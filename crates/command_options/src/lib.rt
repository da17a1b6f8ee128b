// How a table is run: settings, and the options and words that name them.
#![tactic(auto)]

pub mod named;
pub mod options;
pub mod settings;
