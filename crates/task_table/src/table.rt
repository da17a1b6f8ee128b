// A sealed table of tasks.
mod reads;

use crate::task_list::TaskList;

// Its list says of each of its tasks that it is right, and only sealing makes one.
#[derive(Clone, Copy)]
pub struct TaskTable {
    pub(crate) list: TaskList,
}
