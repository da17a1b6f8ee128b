// Policies: which ready task runs.
#![tactic(auto)]

pub mod best;
pub mod choice;
pub mod figure;
pub mod high_first;
pub mod least;
pub mod orders;
pub mod per_task;
pub mod policy;
pub mod shortened;

pub use choice::{Choice, Order};
pub use high_first::HighFirst;
pub use orders::{EarliestDeadline, FixedOrder, LeastLaxity};
pub use per_task::PerTask;
pub use policy::Policy;
pub use shortened::Shortened;
