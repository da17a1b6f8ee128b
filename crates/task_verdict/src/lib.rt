// The verdict on a table of tasks, in either kind and under any policy.
#![tactic(auto)]

pub mod finding;
mod judging;
mod lateness;

pub use finding::{LateRun, TaskJudgement, TaskVerdict};
pub use judging::judge_tasks;
pub use lateness::late_tasks;
