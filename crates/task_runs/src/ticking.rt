// The ticks among the steps of a run.
ghost use Rattle.std.specs.Prelude.{◌≡◌, ◌&&◌, ◌||◌, IfOk};
ghost use Rattle.task_runs.specs.Ticking.{is_tick, ticks};

use job_state::State;
use policies::Policy;
use run_steps::Step;
use std::alloc::{AllocError, Global};
use task_systems::{FINISHING_TICK, TICK};
use task_table::task::Task;

// The state in which the tick begins, and the number of the task that runs at it.
#[derive(Clone, Copy)]
pub struct Tick {
    pub before: State,
    pub ran: Option<usize>,
}

// The accepted ticks of a run in their order, from its first state and its steps, whatever the reasons to refuse events.
pub fn list_ticks<P: Policy, R>(
    heap: Global,
    policy: &P,
    tasks: &[Task],
    first: State,
    steps: &[Step<State, R>],
) -> Result<Vec<Tick>, AllocError>
    ensures { IfOk result (λ v. v.items ≡ ticks (P.Policy.picks policy.now) tasks.now first steps.now) }
{
    let mut listed = Vec::new(heap);
    let mut before = first;
    for step in steps {
        if is_tick(step) {
            let ran = policy.pick(tasks, &before);
            listed.push(Tick { before, ran })?;
        }
        before = step.state;
    }
    Ok(listed)
}

// Whether time went on at the step: an accepted tick, finishing or not.
pub fn is_tick<R>(step: &Step<State, R>) -> bool
    ensures { result ≡ is_tick step.now }
{
    step.answer.is_ok() && matches!(step.event, TICK | FINISHING_TICK)
}
