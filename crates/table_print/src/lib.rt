// Tables, their loads and the faults of table files in plain words.
#![tactic(auto)]

pub mod bytes;
pub mod faults;
pub mod loads;
pub mod rows;
