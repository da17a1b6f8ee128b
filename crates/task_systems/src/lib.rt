// Tables of tasks under a policy, as transition systems: sporadic and periodic.
#![tactic(auto)]

mod answers;
pub mod periodic;
pub mod releases;
pub mod sporadic;
pub mod system;

pub use periodic::Periodic;
pub use releases::{PeriodicReleases, Releases, SporadicReleases};
pub use sporadic::Sporadic;
pub use system::TaskSystem;
pub use system::events::{FINISHING_TICK, TICK};
