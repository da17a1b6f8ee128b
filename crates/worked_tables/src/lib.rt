// Worked cases on small tables, as one proved statement.
#![tactic(auto)]

ghost use Rattle.std.specs.Prelude.{◌≡◌};
ghost use Rattle.task_table.specs.Tables.{tasks_of};
ghost use Rattle.job_state.specs.States.{first};
ghost use Rattle.transition.specs.Runs.{walk};
ghost use Rattle.task_laws.specs.Systems.{meaning};
ghost use Rattle.worked_tables.specs.Cases.{earliest};
ghost use Rattle.worked_tables.specs.Worked.{Worked};

use job_state::State;
use jobs::Kind;
use policies::EarliestDeadline;
use policies::least::Least;
use policies::orders::Deadline;
use task_systems::TaskSystem;
use task_table::table::TaskTable;
use transition::Run;

// The theorem: every case of the table comes out as it is written.
pub fn worked_cases()
    ensures { Worked }
{}

const EARLIEST: EarliestDeadline = Least { by: Deadline };

// Where a real run by earliest deadline is after the events: what the cases say of definitions, they say of it.
pub fn run_earliest(kind: Kind, table: &TaskTable, events: &[u8]) -> State
    ensures { result ≡ walk (meaning earliest kind (tasks_of table.now)) (first kind (tasks_of table.now)) events.now }
{
    let mut run = Run::new(TaskSystem::of(kind, *table, EARLIEST));
    run.call_all(events);
    *run.state()
}
