// Tests and changes of jobs by their tasks, as closures. These functions ask that the closure may be called, so they
// belong to this crate; `job_tests` has the public ones.
// Tasks and jobs are two slices: a table keeps its tasks for good, and states, which are many, hold the jobs alone.
ghost use Rattle.std.specs.Prelude.{◌≡◌, Bool, Option};
ghost use Rattle.task_table.specs.declared.task.Task.{Task};
ghost use Rattle.jobs.specs.declared.job.Job.{Job};
ghost use Rattle.job_state.specs.Lists.{every, any, lowest, over, is_absent};
ghost use Rattle.job_state.specs.Calls.{Answers};

use jobs::Job;
use task_table::task::Task;

// The lowest number of a task whose job passes.
#[tactic(auto, using(crate::proofs::Loops::lowest_end))]
pub(crate) fn lowest_passing<F: Fn(&Task, Job) -> bool>(
    test: F,
    tasks: &[Task],
    jobs: &[Job],
) -> Option<usize>
    requires { F.IsAlwaysCallable test }
    ensures { (passes : Task → Job → Bool) → Answers F.Fn test passes → result ≡ lowest passes 0 tasks.now jobs.now }
{
    // The check does not follow `position` over a zip.
    for (i, (task, job)) in tasks.iter().zip(jobs).enumerate() {
        if test(task, *job) {
            return Some(i + 1);
        }
    }
    None
}

// Whether some task has a job that passes.
pub(crate) fn any_passes<F: Fn(&Task, Job) -> bool>(test: F, tasks: &[Task], jobs: &[Job]) -> bool
    requires { F.IsAlwaysCallable test }
    ensures { (passes : Task → Job → Bool) → Answers F.Fn test passes → result ≡ any passes tasks.now jobs.now }
{
    lowest_passing(test, tasks, jobs).is_some()
}

// Whether every task has a job that passes, and there are no other jobs.
#[tactic(auto, using(crate::proofs::Loops::every_end))]
pub(crate) fn every_passes<F: Fn(&Task, Job) -> bool>(test: F, tasks: &[Task], jobs: &[Job]) -> bool
    requires { F.IsAlwaysCallable test }
    ensures { (passes : Task → Job → Bool) → Answers F.Fn test passes → result ≡ every passes tasks.now jobs.now }
{
    // By `enumerate`, and no zip: a job past the tasks must be absent.
    for (i, job) in jobs.iter().enumerate() {
        let passes = match tasks.get(i) {
            Some(task) => test(task, *job),
            None => *job == Job::Absent,
        };
        if !passes {
            return false;
        }
    }
    tasks.len() <= jobs.len()
}

// Changes each job that has a task.
#[tactic(auto, using(crate::proofs::Loops::over_all))]
pub(crate) fn change_all<F: Fn(&Task, Job) -> Job>(change: F, tasks: &[Task], jobs: &mut [Job])
    requires { F.IsAlwaysCallable change }
    ensures { (changed : Task → Job → Job) → Answers F.Fn change changed → jobs.new ≡ over changed tasks.now jobs.old }
{
    // After `iter_mut().zip(tasks)` nothing is known of the jobs.
    for (i, job) in jobs.iter_mut().enumerate() {
        if let Some(task) = tasks.get(i) {
            *job = change(task, *job);
        }
    }
}
