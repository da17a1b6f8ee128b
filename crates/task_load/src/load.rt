// The load of a table in a mode.
ghost use Rattle.std.specs.Prelude.{◌≡◌};
ghost use Rattle.task_table.specs.Tables.{tasks_of};
ghost use Rattle.task_load.specs.Fractions.{Same, Lowest};
ghost use Rattle.task_load.specs.Loads.{demand, load};

use crate::fraction::Fraction;
use task_table::mode::Mode;
use task_table::table::TaskTable;
use task_table::task::{Criticality, Task};

// How long a job of the task may run in that mode: not at all where the task is dropped.
fn demand(task: &Task, mode: Mode) -> u8
    ensures { result ≡ demand mode task.now }
{
    match (mode, task.criticality) {
        (Mode::Low, _) => task.budget_low,
        (Mode::High, Criticality::High) => task.budget_high,
        (Mode::High, Criticality::Low) => 0,
    }
}

// What the tasks ask for in that mode of each tick, all together, in lowest terms.
pub fn load(table: &TaskTable, mode: Mode) -> Fraction
    ensures same { Same result (load mode (tasks_of table.now)) }
    ensures lowest { Lowest result }
{
    let mut sum = Fraction {
        numerator: 0,
        denominator: 1,
    };
    for task in table.tasks() {
        sum = sum.plus(demand(task, mode), task.period);
    }
    sum.reduced()
}
