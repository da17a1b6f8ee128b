// How much of the processor a table of tasks asks for, as an exact fraction.
#![tactic(auto)]

pub mod fraction;
pub mod load;
