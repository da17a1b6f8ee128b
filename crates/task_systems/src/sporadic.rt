// Sporadic tasks as a system.
pub use crate::system::Sporadic;
