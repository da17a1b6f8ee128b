// The state of all jobs.
mod moves;
mod reads;
mod ticks;

ghost use Rattle.std.specs.Prelude.{◌≡◌, length};

use jobs::Job;
use task_table::mode::Mode;

// The jobs are in the order of their tasks. Anyone may build any state: `fits` says whether tasks can be in it.
// An array, as a table has room for eight tasks and states are kept by value.
#[derive(Clone, Copy, Debug, PartialEq, Eq)]
pub struct State {
    pub mode: Mode,
    pub jobs: [Job; 8],
    ghost wide: { length jobs ≡ 8 },
}
