// The job of one task.
mod moves;
mod rules;

#[derive(Clone, Copy, Debug, PartialEq, Eq)]
pub enum Job {
    // there is no task of that number
    Absent,
    // to be released once the wait is over
    Idle { wait: u8 },
    // released: the wait until the next release, and the run time left
    Ready { wait: u8, left: u8 },
    // the mode is high, and the task is not
    Dropped,
}
