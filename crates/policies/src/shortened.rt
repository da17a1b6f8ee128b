// A layer that shortens deadlines.
mod layer;

use crate::per_task::PerTask;

// The deadlines that are shown, one for each task.
pub type Deadlines = PerTask;

// In low mode the policy below sees, as a task's deadline, the lesser of its deadline and its figure.
#[derive(Clone, Copy, Debug)]
pub struct Shortened<P> {
    pub below: P,
    pub deadlines: Deadlines,
}
