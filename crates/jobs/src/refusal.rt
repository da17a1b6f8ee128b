// Why a state refuses an event.
ghost use Rattle.jobs.specs.Refusals.{number as number_of, number_positive};

use numbered_refusals::Numbered;

#[derive(Clone, Copy, Debug, PartialEq, Eq)]
pub enum JobRefusal {
    // there is no task of that number
    NoTask,
    // the task is dropped
    TaskDropped,
    // the task's last job is not done yet
    StillReady,
    // the task has to wait
    Waiting,
    // no job is picked that could finish
    NonePicked,
    // a task is due, and is released before time goes on
    TaskDue,
    // the tasks cannot be in this state
    NotFitting,
}

impl Numbered for JobRefusal {
    ghost number = { number_of };

    ghost positive = { λ refusal. number_positive refusal };

    fn number(&self) -> u8 {
        match self {
            JobRefusal::NoTask => 4,
            JobRefusal::TaskDropped => 5,
            JobRefusal::StillReady => 6,
            JobRefusal::Waiting => 7,
            JobRefusal::NonePicked => 8,
            JobRefusal::TaskDue => 9,
            JobRefusal::NotFitting => 17,
        }
    }
}
