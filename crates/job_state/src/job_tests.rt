// Tests and changes of jobs by their tasks, for other crates.
// Traits, and no closures: whoever takes a closure asks that it may be called, and a public function asks nothing.
ghost use Rattle.std.specs.Prelude.{◌≡◌, Bool, Option};
ghost use Rattle.task_table.specs.declared.task.Task.{Task};
ghost use Rattle.jobs.specs.declared.job.Job.{Job};
ghost use Rattle.job_state.specs.Lists.{every, any, lowest, over};

use crate::job_closures;
use jobs::Job;
use task_table::task::Task;

// A test of a task and its job.
pub trait JobTest {
    ghost passes: { Self → Task → Job → Bool };

    fn test(&self, task: &Task, job: Job) -> bool
        ensures { result ≡ passes self.now task.now job };
}

// A change of a job by its task.
pub trait JobChange {
    ghost changed: { Self → Task → Job → Job };

    fn change(&self, task: &Task, job: Job) -> Job
        ensures { result ≡ changed self.now task.now job };
}

// The lowest number of a task whose job passes.
pub fn lowest_passing<T: JobTest>(test: &T, tasks: &[Task], jobs: &[Job]) -> Option<usize>
    ensures { result ≡ lowest (T.JobTest.passes test.now) 0 tasks.now jobs.now }
{
    job_closures::lowest_passing(|task, job| test.test(task, job), tasks, jobs)
}

// Whether some task has a job that passes.
pub fn any_passes<T: JobTest>(test: &T, tasks: &[Task], jobs: &[Job]) -> bool
    ensures { result ≡ any (T.JobTest.passes test.now) tasks.now jobs.now }
{
    job_closures::any_passes(|task, job| test.test(task, job), tasks, jobs)
}

// Whether every task has a job that passes, and there are no other jobs.
pub fn every_passes<T: JobTest>(test: &T, tasks: &[Task], jobs: &[Job]) -> bool
    ensures { result ≡ every (T.JobTest.passes test.now) tasks.now jobs.now }
{
    job_closures::every_passes(|task, job| test.test(task, job), tasks, jobs)
}

// Changes each job that has a task.
pub fn change_all<C: JobChange>(by: &C, tasks: &[Task], jobs: &mut [Job])
    ensures { jobs.new ≡ over (C.JobChange.changed by.now) tasks.now jobs.old }
{
    job_closures::change_all(|task, job| by.change(task, job), tasks, jobs);
}
