// What holds of one job by its task's figures.
ghost use Rattle.std.specs.Prelude.{◌≡◌};
ghost use Rattle.jobs.specs.declared.job.Job.TheVariants.{Idle};
ghost use Rattle.jobs.specs.Tasks.{first_wait};
ghost use Rattle.jobs.specs.Jobs.{fits_job, late_job, doomed_job, due_job};

use crate::figures::{budget, first_wait, is_active, longest_wait, time_to_deadline, worst_laxity};
use crate::job::Job;
use crate::kind::Kind;
use task_table::mode::Mode;
use task_table::task::Task;

impl Job {
    // The job of a task before anything has happened.
    pub fn first(kind: Kind, task: &Task) -> Job
        ensures { result ≡ Idle (first_wait kind task.now) }
    {
        Job::Idle {
            wait: first_wait(kind, task),
        }
    }

    // Whether the job is ready, and has no time to its deadline.
    pub fn is_late(self, task: &Task) -> bool
        ensures { result ≡ late_job task.now self }
    {
        match self {
            Job::Ready { wait, .. } => time_to_deadline(task, wait) <= 0,
            _ => false,
        }
    }

    // Whether the job is ready, and its worst laxity is below 0.
    pub fn is_doomed(self, mode: Mode, task: &Task) -> bool
        ensures { result ≡ doomed_job mode task.now self }
    {
        match self {
            Job::Ready { wait, left } => worst_laxity(mode, task, wait, left) < 0,
            _ => false,
        }
    }

    // Whether the task is to be released before time goes on.
    pub fn is_due(self, kind: Kind) -> bool
        ensures { result ≡ due_job kind self }
    {
        kind == Kind::Periodic && matches!(self, Job::Idle { wait: 0 })
    }

    // Whether the task can have this job in that mode.
    pub fn fits(self, kind: Kind, mode: Mode, task: &Task) -> bool
        ensures { result ≡ fits_job kind mode task.now self }
    {
        let active = is_active(mode, task);
        match self {
            Job::Absent => false,
            Job::Idle { wait } => active && wait <= longest_wait(kind, task),
            Job::Ready { wait, left } => {
                active && wait <= task.period && 1 <= left && left <= budget(mode, task)
            }
            Job::Dropped => !active,
        }
    }
}
