// What is done with a draft.
ghost use Rattle.std.specs.Prelude.{◌≡◌, [], OnErr};
ghost use Rattle.task_table.specs.Tables.{drafted, tasks_of, answer, grown};

use crate::draft::Draft;
use crate::refusal::DraftRefusal;
use crate::table::TaskTable;
use crate::task::Task;
use crate::task_list::{ROOM, TaskList};

impl Draft {
    // A draft without tasks.
    pub fn new() -> Draft
        ensures { drafted result ≡ [] }
    {
        let list = TaskList {
            rows: [Task::UNUSED; 8],
            count: 0,
        };
        Draft { list }
    }

    // Adds the task as the last one, or says why not and leaves the draft as it was.
    pub fn add(&mut self, task: Task) -> Result<(), DraftRefusal>
        ensures answers { result ≡ answer (drafted self.old) task }
        ensures leaves { drafted self.new ≡ grown result (drafted self.old) task }
        ensures refused_as_it_was { OnErr result (self.new ≡ self.old) }
    {
        if self.list.count >= ROOM {
            return Err(DraftRefusal::NinthTask);
        }
        if !task.is_right() {
            return Err(DraftRefusal::WrongTask);
        }
        self.list.rows[self.list.count] = task;
        self.list.count += 1;
        Ok(())
    }

    // The table of the draft's tasks, in their order.
    pub fn seal(self) -> TaskTable
        ensures { tasks_of result ≡ drafted self }
    {
        TaskTable { list: self.list }
    }
}
