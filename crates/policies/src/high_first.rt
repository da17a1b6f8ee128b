// A layer that lets high tasks run first.
ghost use Rattle.std.specs.Prelude.{◌≡◌};
ghost use Rattle.task_table.specs.declared.mode.Mode.TheVariants.{Low};
ghost use Rattle.job_state.specs.Lists.{any, over};
ghost use Rattle.policies.specs.Layers.{high_ready, hidden, high_first};
ghost use Rattle.policies.specs.Shows.{high_first_ready, high_first_blind};

use crate::policy::Policy;
use job_state::State;
use jobs::Job;
use jobs::figures::is_high;
use task_table::mode::Mode;
use task_table::task::Task;

// In low mode, whenever a high task is ready, the policy below sees every ready low task as idle with wait 0.
#[derive(Clone, Copy, Debug)]
pub struct HighFirst<P> {
    pub below: P,
}

impl<P: Policy> Policy for HighFirst<P> {
    ghost picks = { λ p tasks mode jobs. P.Policy.picks p.below tasks mode (high_first tasks mode jobs) };

    ghost ready = { λ p tasks mode jobs. high_first_ready tasks mode jobs _ (P.Policy.ready p.below tasks mode (high_first tasks mode jobs)) };

    ghost blind = { λ p tasks mode xs ys h. P.Policy.blind p.below tasks mode _ _ (high_first_blind tasks mode xs ys h) };

    fn pick(&self, tasks: &[Task], state: &State) -> Option<usize> {
        self.below.pick(tasks, &show(tasks, state))
    }
}

// The state as the policy below sees it.
#[tactic(auto, unfolding(crate::specs::Layers::high_first))]
fn show(tasks: &[Task], state: &State) -> State
    ensures mode { result.mode ≡ state.now.mode }
    ensures jobs { result.jobs ≡ high_first tasks.now state.now.mode state.now.jobs }
{
    let mut shown = *state;
    if state.mode == Mode::Low && is_any_high_ready(tasks, &state.jobs) {
        hide_all(tasks, &mut shown.jobs);
    }
    shown
}

// Whether some high task is ready.
#[tactic(auto, using(crate::proofs::Lacking::any_end))]
fn is_any_high_ready(tasks: &[Task], jobs: &[Job]) -> bool
    ensures { result ≡ any high_ready tasks.now jobs.now }
{
    for (task, job) in tasks.iter().zip(jobs) {
        if is_high_ready(task, *job) {
            return true;
        }
    }
    false
}

// Hides each job that has a task.
#[tactic(auto, using(job_state::proofs::Loops::over_all))]
fn hide_all(tasks: &[Task], jobs: &mut [Job])
    ensures { jobs.new ≡ over hidden tasks.now jobs.old }
{
    // After `iter_mut().zip(tasks)` nothing is known of the jobs.
    for (i, job) in jobs.iter_mut().enumerate() {
        if let Some(task) = tasks.get(i) {
            *job = hide(task, *job);
        }
    }
}

// Whether the task is high, and its job is ready.
fn is_high_ready(task: &Task, job: Job) -> bool
    ensures { result ≡ high_ready task.now job }
{
    matches!(job, Job::Ready { .. }) && is_high(task)
}

// A ready low task is shown as idle with wait 0.
fn hide(task: &Task, job: Job) -> Job
    ensures { result ≡ hidden task.now job }
{
    match job {
        Job::Ready { .. } if !is_high(task) => Job::Idle { wait: 0 },
        _ => job,
    }
}
