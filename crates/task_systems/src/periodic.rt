// Periodic tasks as a system.
pub use crate::system::Periodic;
