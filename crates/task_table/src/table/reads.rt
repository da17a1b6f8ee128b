// What a table shows.
ghost use Rattle.std.specs.Prelude.{◌≡◌, ◌≤◌, length, IfSome};
ghost use Rattle.std.specs.List.{AllByRecursion};
ghost use Rattle.task_table.specs.Tasks.{Right};
ghost use Rattle.task_table.specs.Tables.{tasks_of, numbered};

use crate::table::TaskTable;
use crate::task::Task;

impl TaskTable {
    // How many tasks there are.
    pub fn len(&self) -> usize
        ensures answers { result ≡ length (tasks_of self.now) }
        ensures few { result ≤ 8 }
    {
        self.list.count
    }

    // The task of that number, which counts from 1.
    pub fn task(&self, number: usize) -> Option<Task>
        ensures answers { result ≡ numbered (tasks_of self.now) number }
        ensures right { IfSome result Right }
    {
        self.tasks().get(number.checked_sub(1)?).copied()
    }

    // All tasks, in their order.
    pub fn tasks(&self) -> &[Task]
        ensures answers { result.now ≡ tasks_of self.now }
        ensures right { AllByRecursion Right result.now }
        ensures few { length result.now ≤ 8 }
    {
        &self.list.rows[..self.list.count]
    }
}
