// Table files: what a line says, what a whole file says, and what can be wrong with them.
#![tactic(auto)]

pub mod fault;
pub mod figures;
pub mod found;
pub mod line;
pub mod pieces;
pub mod reading;
pub mod table;
