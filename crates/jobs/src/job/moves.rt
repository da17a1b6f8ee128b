// What happens to one job.
ghost use Rattle.std.specs.Prelude.{◌≡◌, ◌&&◌, ◌||◌};
ghost use Rattle.jobs.specs.Moves.{job_answer, released_job, waited, run as ran, ended, used_up, last_budget};

use crate::figures::budget;
use crate::job::Job;
use crate::refusal::JobRefusal;
use task_table::mode::Mode;
use task_table::task::Task;

impl Job {
    // Releases the job: it becomes ready with the whole period to wait and the mode's budget left.
    pub fn release(&mut self, mode: Mode, task: &Task) -> Result<(), JobRefusal>
        ensures answers { result ≡ job_answer self.old }
        ensures leaves { self.new ≡ released_job mode task.now self.old }
    {
        match *self {
            Job::Absent => Err(JobRefusal::NoTask),
            Job::Dropped => Err(JobRefusal::TaskDropped),
            Job::Ready { .. } => Err(JobRefusal::StillReady),
            Job::Idle { wait } => {
                if wait > 0 {
                    return Err(JobRefusal::Waiting);
                }
                *self = Job::Ready {
                    wait: task.period,
                    left: budget(mode, task),
                };
                Ok(())
            }
        }
    }

    // The job a tick later: its wait has fallen by one, not below 0.
    pub fn wait(self) -> Job
        ensures { result ≡ waited self }
    {
        match self {
            Job::Idle { wait } => Job::Idle {
                wait: wait.saturating_sub(1),
            },
            Job::Ready { wait, left } => Job::Ready {
                wait: wait.saturating_sub(1),
                left,
            },
            _ => self,
        }
    }

    // The job once it has run for a tick.
    pub fn run(self) -> Job
        ensures { result ≡ ran self }
    {
        match self {
            Job::Ready { wait, left } => Job::Ready {
                wait,
                left: left.saturating_sub(1),
            },
            _ => self,
        }
    }

    // The job once it has ended.
    pub fn end(self) -> Job
        ensures { result ≡ ended self }
    {
        match self {
            Job::Ready { wait, .. } => Job::Idle { wait },
            _ => self,
        }
    }

    pub fn is_used_up(self) -> bool
        ensures { result ≡ used_up self }
    {
        matches!(self, Job::Ready { left: 0, .. })
    }

    // Whether the job ends, once it has run: the tick is finishing, or its last budget is used up.
    pub fn ends(self, finishing: bool, mode: Mode, task: &Task) -> bool
        ensures { result ≡ (finishing || (used_up self && last_budget mode task.now)) }
    {
        finishing || (self.is_used_up() && is_last_budget(mode, task))
    }
}

// Whether there is no greater budget than the one of this mode.
fn is_last_budget(mode: Mode, task: &Task) -> bool
    ensures { result ≡ last_budget mode task.now }
{
    mode == Mode::High || task.budget_low == task.budget_high
}
