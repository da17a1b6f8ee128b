// A draft of a table: tasks are added one by one, and sealing moves them into the table.
mod adds;

use crate::task_list::TaskList;

// It can be neither copied nor cloned, so that a sealed draft is gone.
#[derive(Drop)]
pub struct Draft {
    pub(crate) list: TaskList,
}
