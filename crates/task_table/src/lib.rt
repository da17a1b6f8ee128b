// Tasks of two criticalities, drafts of tables, and tables that hold only right tasks.
#![tactic(auto)]

pub mod draft;
pub mod mode;
pub mod refusal;
pub mod table;
pub mod task;
mod task_list;
