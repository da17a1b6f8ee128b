// The verdict on a system: it is explored, and where it is ever late, a run that is late is handed back.
#![tactic(auto)]

mod failing;
pub mod judgement;
mod judging;
mod moments;

pub use judgement::{Failure, Judgement, Verdict};
pub use judging::judge;
pub use moments::{is_ever_late, run_after};
