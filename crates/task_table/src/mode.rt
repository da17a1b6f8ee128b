// In which mode the processor is.
use std::fmt;

#[derive(Clone, Copy, Debug, PartialEq, Eq)]
pub enum Mode {
    // every task runs, and each job is counted on to keep to its low budget
    Low,
    // a job has used up its low budget: tasks of low criticality are dropped
    High,
}

impl fmt::Display for Mode {
    fn fmt<W: fmt::Write>(&self, f: &mut fmt::Formatter<W>) -> fmt::Result {
        f.pad(match self {
            Mode::Low => "low",
            Mode::High => "high",
        })
    }
}
