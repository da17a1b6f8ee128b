// What is found out about a table of tasks.
ghost use Rattle.std.specs.Prelude.{◌≡◌};
ghost use Rattle.task_verdict.specs.Plain.{state_alone};

use job_state::State;
use transition::System;
use verdict::{Failure, Judgement, Verdict};

// How a run of the tasks came to be late: events that lead to a doomed state, forced events after them, and the
// late state.
#[derive(Drop)]
pub struct LateRun {
    pub events: Vec<u8>,
    pub forced: Vec<u8>,
    pub state: State,
}

// The late run of a system whose states are those of tasks, with its state alone.
impl<S: System<State = State> + Drop> From<Failure<S>> for LateRun {
    ghost from_gives = { λ failure late. late ≡ state_alone failure };

    fn from(failure: Failure<S>) -> Self {
        let Failure {
            events,
            forced,
            run,
        } = failure;
        let state = *run.state();
        LateRun {
            events,
            forced,
            state,
        }
    }
}

// The verdict on tasks.
pub type TaskVerdict = Verdict<LateRun>;

// The judgement of tasks.
pub type TaskJudgement = Judgement<LateRun>;
