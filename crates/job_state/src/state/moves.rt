// What a new state is, and what a release does to it.
ghost use Rattle.std.specs.Prelude.{◌≡◌, ℕ, ◌≢◌};
ghost use Rattle.job_state.specs.Lists.{job_numbered};
ghost use Rattle.job_state.specs.States.{first as first_state};
ghost use Rattle.job_state.specs.Releases.{release_answer, released};

use crate::job_closures::change_all;
use crate::state::State;
use jobs::{Job, JobRefusal, Kind};
use task_table::mode::Mode;
use task_table::task::Task;

impl State {
    // The state of a new run: low, every task idle.
    pub fn first(kind: Kind, tasks: &[Task]) -> State
        ensures { result ≡ first_state kind tasks.now }
    {
        let mut jobs = [Job::Absent; 8];
        change_all(|task, _| Job::first(kind, task), tasks, &mut jobs);
        State {
            mode: Mode::Low,
            jobs,
        }
    }

    // Releases the task of that number: its job becomes ready, or the refusal says why not.
    pub fn release(&mut self, tasks: &[Task], number: usize) -> Result<(), JobRefusal>
        ensures answers { result ≡ release_answer tasks.now number self.old }
        ensures leaves { self.new ≡ released tasks.now number self.old }
        ensures others { (k : ℕ) → (k ≢ number) → job_numbered self.new.jobs k ≡ job_numbered self.old.jobs k }
    {
        // `tasks` may be longer than a table.
        if number == 0 || number > tasks.len() || number > 8 {
            return Err(JobRefusal::NoTask);
        }
        let mode = self.mode;
        let job = &mut self.jobs[number - 1];
        job.release(mode, &tasks[number - 1])
    }
}
