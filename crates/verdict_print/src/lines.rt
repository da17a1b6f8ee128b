// The lines of a verdict that scripts read.
use std::fmt;
use task_verdict::{TaskJudgement, TaskVerdict};

// The answer, how many nodes are kept, and how many visits are written.
#[derive(Drop)]
pub struct AnswerLine<'a>(pub &'a TaskJudgement);

impl fmt::Display for AnswerLine<'_> {
    fn fmt<W: fmt::Write>(&self, f: &mut fmt::Formatter<W>) -> fmt::Result {
        let answer = match &self.0.verdict {
            TaskVerdict::Schedulable => "schedulable",
            TaskVerdict::Unschedulable(_) => "unschedulable",
            // The numbers of `Outcome`, written out: a verdict on tasks holds no outcome to ask.
            TaskVerdict::TooLarge => "10",
            TaskVerdict::VisitsFull => "11",
            TaskVerdict::NodesFull => "12",
        };
        let nodes = self.0.nodes;
        let visits = self.0.visits;
        write!(f, "answer {answer} {nodes} {visits}")
    }
}

// A word and the numbers after it.
#[derive(Drop)]
pub struct NumberLine<'a, T> {
    pub word: &'static str,
    pub numbers: &'a [T],
}

impl<T: fmt::Display> fmt::Display for NumberLine<'_, T> {
    fn fmt<W: fmt::Write>(&self, f: &mut fmt::Formatter<W>) -> fmt::Result {
        let word = self.word;
        write!(f, "{word}")?;
        for number in self.numbers {
            write!(f, " {number}")?;
        }
        Ok(())
    }
}
