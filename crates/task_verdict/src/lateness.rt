// The tasks that missed their deadlines.
ghost use Rattle.std.specs.Prelude.{◌≡◌, ◌<◌, true, length, IfOk};
ghost use Rattle.task_table.specs.Tables.{tasks_of};
ghost use Rattle.job_state.specs.States.{late};
ghost use Rattle.task_verdict.specs.Misses.{late_numbers};

use job_state::State;
use std::alloc::{AllocError, Global};
use task_table::table::TaskTable;

// The numbers of the tasks whose job is late, the lowest first; in a late state there is one.
pub fn late_tasks(heap: Global, table: &TaskTable, state: &State) -> Result<Vec<usize>, AllocError>
    ensures numbers { IfOk result (λ v. v.items ≡ late_numbers 0 (tasks_of table.now) state.now.jobs) }
    ensures somebody { IfOk result (λ v. late (tasks_of table.now) state.now ≡ true → 0 < length v.items) }
{
    let mut numbers = Vec::new(heap);
    // A loop: a chain of `enumerate`, `zip`, `filter`, `map` and `collect` is no shorter.
    for (i, task) in table.tasks().iter().enumerate() {
        if state.jobs[i].is_late(task) {
            numbers.push(i + 1)?;
        }
    }
    Ok(numbers)
}
