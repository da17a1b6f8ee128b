// What is asked of a state.
ghost use Rattle.std.specs.Prelude.{◌≡◌};
ghost use Rattle.jobs.specs.Jobs.{due_job};
ghost use Rattle.job_state.specs.Lists.{lowest};
ghost use Rattle.job_state.specs.States.{fits, late, doomed, due};

use crate::job_closures::{any_passes, every_passes, lowest_passing};
use crate::state::State;
use jobs::Kind;
use task_table::task::Task;

// The kind and the tasks are asked apart: `is_late` and `is_doomed` look at the tasks alone.
impl State {
    // Whether the tasks can be in this state.
    #[tactic(auto, unfolding(crate::specs::States::fits))]
    pub fn fits(&self, kind: Kind, tasks: &[Task]) -> bool
        ensures { result ≡ fits kind tasks.now self.now }
    {
        every_passes(
            |task, job| job.fits(kind, self.mode, task),
            tasks,
            &self.jobs,
        )
    }

    // Whether some ready job has no time to its deadline.
    #[tactic(auto, unfolding(crate::specs::States::late))]
    pub fn is_late(&self, tasks: &[Task]) -> bool
        ensures { result ≡ late tasks.now self.now }
    {
        any_passes(|task, job| job.is_late(task), tasks, &self.jobs)
    }

    // Whether some ready job has a worst laxity below 0.
    #[tactic(auto, unfolding(crate::specs::States::doomed))]
    pub fn is_doomed(&self, tasks: &[Task]) -> bool
        ensures { result ≡ doomed tasks.now self.now }
    {
        any_passes(
            |task, job| job.is_doomed(self.mode, task),
            tasks,
            &self.jobs,
        )
    }

    // Whether some task waits no longer, in a periodic system.
    #[tactic(auto, unfolding(crate::specs::States::due))]
    pub fn is_due(&self, kind: Kind, tasks: &[Task]) -> bool
        ensures { result ≡ due kind tasks.now self.now }
    {
        any_passes(|_, job| job.is_due(kind), tasks, &self.jobs)
    }

    // The lowest number of a task that is due.
    pub fn lowest_due(&self, kind: Kind, tasks: &[Task]) -> Option<usize>
        ensures { result ≡ lowest (λ _. due_job kind) 0 tasks.now self.now.jobs }
    {
        lowest_passing(|_, job| job.is_due(kind), tasks, &self.jobs)
    }
}
