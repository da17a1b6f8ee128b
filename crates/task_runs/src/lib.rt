// Runs of tables of tasks: what comes of each event, and which task runs at each tick.
#![tactic(auto)]

pub mod recording;
pub mod ticking;

pub use recording::{TaskStep, record_run};
pub use task_systems::{FINISHING_TICK, TICK};
pub use ticking::{Tick, is_tick, list_ticks};
