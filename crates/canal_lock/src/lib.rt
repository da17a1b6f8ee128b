// A lock of a canal as a transition system: whether every boat gets through before it has waited too long.
#![tactic(auto)]

pub mod lock;
pub mod refusal;
pub mod system;

pub use lock::{Chamber, Lock};
pub use refusal::LockRefusal;
pub use system::{COMES, TICK};
