// A table of two tasks is drafted and sealed, its tasks are read, and a run of it is begun: the smallest right
// use of a table.
#![tactic(auto)]

ghost use Rattle.std.specs.Prelude.{◌≡◌, length, MatchResult};
ghost use Rattle.task_table.specs.Tables.{drafted, tasks_of};

use numbered_refusals::told;
use policies::EarliestDeadline;
use policies::least::Least;
use policies::orders::Deadline;
use std::io;
use task_systems::{Sporadic, TICK};
use task_table::draft::Draft;
use task_table::refusal::DraftRefusal;
use task_table::table::TaskTable;
use task_table::task::{Criticality, Task};
use transition::Run;

// A demo is one file that is read whole, so this one writes its tasks and their table out as sealing_demo does.
const RUDDER: Task = Task {
    criticality: Criticality::High,
    period: 3,
    deadline: 3,
    budget_low: 2,
    budget_high: 3,
    offset: 0,
};

const PLOTTER: Task = Task {
    criticality: Criticality::Low,
    period: 3,
    deadline: 3,
    budget_low: 2,
    budget_high: 2,
    offset: 0,
};

const EARLIEST: EarliestDeadline = Least { by: Deadline };

// Both tasks are right, so neither is refused.
fn pair_draft() -> Result<Draft, DraftRefusal>
    ensures { MatchResult result (λ d. length (drafted d) ≡ 2) (λ _. ⊥) }
{
    let mut draft = Draft::new();
    draft.add(RUDDER)?;
    draft.add(PLOTTER)?;
    Ok(draft)
}

fn pair() -> Result<TaskTable, DraftRefusal>
    ensures { MatchResult result (λ t. length (tasks_of t) ≡ 2) (λ _. ⊥) }
{
    let draft = pair_draft()?;
    let table = draft.seal();
    Ok(table)
}

// The same two tasks as a system.
fn pair_system() -> Result<Sporadic<EarliestDeadline>, DraftRefusal>
    ensures { MatchResult result (λ s. length (tasks_of s.table) ≡ 2) (λ _. ⊥) }
{
    let draft = pair_draft()?;
    Ok(Sporadic::new(draft.seal(), EARLIEST))
}

fn tell_first_tick(rt: &HostRuntime) -> io::Result<()> {
    match pair_system() {
        Ok(system) => {
            let mut run = Run::new(system);
            let answer = run.call(TICK);
            println!(rt; "the first tick is answered {}", told(&answer))
        }
        Err(refusal) => println!(rt; "{refusal}"),
    }
}

fn main(rt: HostRuntime) -> io::Result<()> {
    match pair() {
        Ok(sealed) => {
            println!(rt; "{} tasks", sealed.len())?;
            for task in sealed.tasks() {
                let criticality = task.criticality;
                let period = task.period;
                println!(rt; "{criticality:?} every {period} ticks")?;
            }
            tell_first_tick(&rt)
        }
        Err(refusal) => println!(rt; "{refusal}"),
    }
}
