// A task, by its timing figures in ticks.
ghost use Rattle.std.specs.Prelude.{◌≡◌, Decides};
ghost use Rattle.task_table.specs.Tasks.{is_right, Right};

use std::fmt;

// What a task is worth: in high mode only the tasks of high criticality go on.
#[derive(Clone, Copy, Debug, PartialEq, Eq)]
pub enum Criticality {
    Low,
    High,
}

impl fmt::Display for Criticality {
    fn fmt<W: fmt::Write>(&self, f: &mut fmt::Formatter<W>) -> fmt::Result {
        f.pad(match self {
            Criticality::Low => "low",
            Criticality::High => "high",
        })
    }
}

#[derive(Clone, Copy, Debug, PartialEq, Eq)]
pub struct Task {
    pub criticality: Criticality,
    // the least time between two releases
    pub period: u8,
    // the time after its release at which a job must have ended
    pub deadline: u8,
    // the run time of a job that is counted on in low mode
    pub budget_low: u8,
    // the run time of a job that is counted on in high mode
    pub budget_high: u8,
    // the wait before the first release, where releases are periodic
    pub offset: u8,
}

impl Task {
    pub const LONGEST: u8 = 127;

    // What stands where there is no task.
    pub const UNUSED: Task = Task {
        criticality: Criticality::Low,
        period: 1,
        deadline: 1,
        budget_low: 1,
        budget_high: 1,
        offset: 0,
    };

    // Whether the figures can be those of a task.
    pub fn is_right(&self) -> bool
        ensures answers { result ≡ is_right self.now }
        ensures means { Decides result (Right self.now) }
    {
        let budgets = match self.criticality {
            Criticality::Low => self.budget_low == self.budget_high,
            Criticality::High => self.budget_low <= self.budget_high,
        };
        1 <= self.budget_low
            && budgets
            && self.budget_high <= self.deadline
            && self.deadline <= self.period
            && self.period <= Self::LONGEST
            && self.offset <= Self::LONGEST
    }
}
