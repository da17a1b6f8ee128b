// What a tick does to a state.
ghost use Rattle.std.specs.Prelude.{◌≡◌, ◌≤◌, false, map, length, if◌then◌else◌, Ok, Err};
ghost use Rattle.task_table.specs.declared.mode.Mode.TheVariants.{Low};
ghost use Rattle.task_table.specs.Tables.{numbered};
ghost use Rattle.jobs.specs.declared.refusal.JobRefusal.TheVariants.{NotFitting};
ghost use Rattle.jobs.specs.Moves.{waited};
ghost use Rattle.job_state.specs.Lists.{any, over};
ghost use Rattle.job_state.specs.States.{fits};
ghost use Rattle.job_state.specs.Ticks.{over_budget, raised_job, served, ticked};

use crate::state::State;
use jobs::figures::is_high;
use jobs::{Job, JobRefusal, Kind};
use task_table::mode::Mode;
use task_table::task::Task;

impl State {
    // Lets a tick pass at which the task of that number runs, or none: a state that does not fit is left as it was.
    pub fn tick(
        &mut self,
        kind: Kind,
        tasks: &[Task],
        picked: Option<usize>,
        finishing: bool,
    ) -> Result<(), JobRefusal>
        ensures answers { result ≡ (if fits kind tasks.now self.old then Ok tt else Err NotFitting) }
        ensures leaves { self.new ≡ (if fits kind tasks.now self.old then ticked tasks.now finishing picked self.old else self.old) }
    {
        if !self.fits(kind, tasks) {
            return Err(JobRefusal::NotFitting);
        }
        wait_all(&mut self.jobs);
        if let Some(number) = picked {
            if 1 <= number && number <= tasks.len() {
                self.serve(tasks, number, finishing);
            }
        }
        Ok(())
    }

    // The task of that number runs for a tick.
    fn serve(&mut self, tasks: &[Task], number: usize, finishing: bool)
        requires above { 1 ≤ number }
        requires task { number ≤ length tasks.now }
        requires job { number ≤ 8 }
        requires room { self.old.mode ≡ Low → any over_budget tasks.now self.old.jobs ≡ false }
        ensures { self.new ≡ served tasks.now finishing (numbered tasks.now number) number self.old }
    {
        let job = self.jobs[number - 1].run();
        self.jobs[number - 1] = job;
        if job.ends(finishing, self.mode, &tasks[number - 1]) {
            self.jobs[number - 1] = job.end();
        } else if job.is_used_up() {
            raise_all(tasks, &mut self.jobs);
            self.mode = Mode::High;
        }
    }
}

// Each wait falls by one.
fn wait_all(jobs: &mut [Job])
    ensures { jobs.new ≡ map waited jobs.old }
{
    for job in jobs.iter_mut() {
        *job = job.wait();
    }
}

// Low tasks are dropped, and ready high jobs gain.
// Not by `change_all`, whose function may be called with any job: `raise` asks that the job is within its budget.
#[tactic(auto, using(crate::proofs::Loops::over_all))]
fn raise_all(tasks: &[Task], jobs: &mut [Job])
    requires { any over_budget tasks.now jobs.old ≡ false }
    ensures { jobs.new ≡ over raised_job tasks.now jobs.old }
{
    for (i, job) in jobs.iter_mut().enumerate() {
        if let Some(task) = tasks.get(i) {
            *job = raise(*job, task);
        }
    }
}

// The job once the mode has become high.
fn raise(job: Job, task: &Task) -> Job
    requires { over_budget task.now job ≡ false }
    ensures { result ≡ raised_job task.now job }
{
    match job {
        Job::Idle { .. } | Job::Ready { .. } if !is_high(task) => Job::Dropped,
        Job::Ready { wait, left } => Job::Ready {
            wait,
            left: left + task.budget_high.saturating_sub(task.budget_low),
        },
        _ => job,
    }
}
