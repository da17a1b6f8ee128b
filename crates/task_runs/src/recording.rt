// Makes events on a new run of a table.
ghost use Rattle.std.specs.Prelude.{◌≡◌, IfOk};
ghost use Rattle.task_table.specs.Tables.{tasks_of};
ghost use Rattle.job_state.specs.States.{first};
ghost use Rattle.task_laws.specs.Systems.{meaning};
ghost use Rattle.run_steps.specs.Steps.{steps, Tell};

use job_state::State;
use jobs::{JobRefusal, Kind};
use policies::Policy;
use run_steps::{Step, record_steps};
use std::alloc::{AllocError, Global};
use task_systems::TaskSystem;
use task_table::table::TaskTable;
use transition::Run;

// A step of a run of tasks.
pub type TaskStep = Step<State, JobRefusal>;

// Makes the events in turn on a new run of that kind under the policy, and answers a step for each.
pub fn record_run<P: Policy + Copy>(
    heap: Global,
    kind: Kind,
    table: &TaskTable,
    policy: &P,
    events: &[u8],
) -> Result<Vec<TaskStep>, AllocError>
    ensures steps { IfOk result (λ v. v.items ≡ steps (meaning (P.Policy.picks policy.now) kind (tasks_of table.now)) (first kind (tasks_of table.now)) events.now) }
    ensures tell { IfOk result (λ v. Tell (meaning (P.Policy.picks policy.now) kind (tasks_of table.now)) (first kind (tasks_of table.now)) events.now v.items) }
{
    let mut run = Run::new(TaskSystem::of(kind, *table, *policy));
    record_steps(heap, &mut run, events)
}
