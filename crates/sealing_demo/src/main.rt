// A table of two tasks is drafted and sealed, and its tasks are read: the smallest right use of a table.
#![tactic(auto)]

ghost use Rattle.std.specs.Prelude.{◌≡◌, length, MatchResult};
ghost use Rattle.task_table.specs.Tables.{tasks_of};

use std::io;
use task_table::draft::Draft;
use task_table::refusal::DraftRefusal;
use task_table::table::TaskTable;
use task_table::task::{Criticality, Task};

const RUDDER: Task = Task {
    criticality: Criticality::High,
    period: 3,
    deadline: 3,
    budget_low: 2,
    budget_high: 3,
    offset: 0,
};

const PLOTTER: Task = Task {
    criticality: Criticality::Low,
    period: 3,
    deadline: 3,
    budget_low: 2,
    budget_high: 2,
    offset: 0,
};

// Both tasks are right, so neither is refused.
fn pair() -> Result<TaskTable, DraftRefusal>
    ensures { MatchResult result (λ t. length (tasks_of t) ≡ 2) (λ _. ⊥) }
{
    let mut draft = Draft::new();
    draft.add(RUDDER)?;
    draft.add(PLOTTER)?;
    let table = draft.seal();
    Ok(table)
}

fn main(rt: HostRuntime) -> io::Result<()> {
    match pair() {
        Ok(sealed) => {
            println!(rt; "{} tasks", sealed.len())?;
            for task in sealed.tasks() {
                let criticality = task.criticality;
                let period = task.period;
                println!(rt; "{criticality:?} every {period} ticks")?;
            }
            Ok(())
        }
        Err(refusal) => println!(rt; "{refusal}"),
    }
}
