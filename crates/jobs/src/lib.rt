// One task and its job: figures, what a release and the steps of a tick do to the job, and refusals.
#![tactic(auto)]

pub mod figures;
pub mod job;
pub mod kind;
pub mod refusal;

pub use job::Job;
pub use kind::Kind;
pub use refusal::JobRefusal;
