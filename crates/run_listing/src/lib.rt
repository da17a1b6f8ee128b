// The events of a run one by one, each with the state after it.
#![tactic(auto)]

mod listing;
mod words;

pub use listing::Listing;
