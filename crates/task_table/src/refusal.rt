// Why a draft refuses a task.
ghost use Rattle.task_table.specs.Refusals.{number as number_of, number_positive};

use numbered_refusals::Numbered;
use std::fmt;

#[derive(Clone, Copy, Debug, PartialEq, Eq)]
pub enum DraftRefusal {
    // the draft has its eight tasks already
    NinthTask,
    // the figures cannot be those of a task
    WrongTask,
}

impl Numbered for DraftRefusal {
    ghost number = { number_of };

    ghost positive = { λ refusal. number_positive refusal };

    fn number(&self) -> u8 {
        match self {
            DraftRefusal::NinthTask => 1,
            DraftRefusal::WrongTask => 2,
        }
    }
}

impl fmt::Display for DraftRefusal {
    fn fmt<W: fmt::Write>(&self, f: &mut fmt::Formatter<W>) -> fmt::Result {
        let number = self.number();
        let reason = match self {
            DraftRefusal::NinthTask => "a table has room for eight tasks",
            DraftRefusal::WrongTask => "these cannot be the figures of a task",
        };
        write!(f, "refusal {number}: {reason}")
    }
}
