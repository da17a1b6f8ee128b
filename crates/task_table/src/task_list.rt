// Right tasks in their order, at most eight: what drafts and tables hold.
ghost use Rattle.std.specs.Prelude.{◌≡◌, ◌≤◌, true, length, take};
ghost use Rattle.task_table.specs.Tasks.{all_right};

use crate::task::Task;

pub(crate) const ROOM: usize = 8;

// An array and its count: a table has room for eight tasks, takes no memory and is `Copy`.
#[derive(Clone, Copy)]
pub(crate) struct TaskList {
    pub(crate) rows: [Task; 8],
    pub(crate) count: usize,
    ghost room: { length rows ≡ 8 },
    ghost within: { count ≤ 8 },
    ghost right: { all_right (take count rows) ≡ true },
}
