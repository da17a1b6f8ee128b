// Why a verdict is as it is, and what it covers.
use explorer::{MOST_NODES, MOST_VISITS};
use std::fmt;
use task_verdict::{TaskJudgement, TaskVerdict};

// The judgement, with how many nodes and visits were lent for it.
#[derive(Drop)]
pub struct Grounds<'a> {
    pub judgement: &'a TaskJudgement,
    pub lent_nodes: usize,
    pub lent_visits: usize,
}

impl fmt::Display for Grounds<'_> {
    fn fmt<W: fmt::Write>(&self, f: &mut fmt::Formatter<W>) -> fmt::Result {
        match &self.judgement.verdict {
            TaskVerdict::Schedulable => {
                writeln!(f, "schedulable: no job of this table is ever late\n")?;
                writeln!(f, "{YES}")?;
            }
            TaskVerdict::Unschedulable(_) => {
                writeln!(f, "unschedulable: a job of this table can be late\n")?;
                writeln!(f, "{NO}")?;
            }
            TaskVerdict::TooLarge => {
                return writeln!(f, "{TOO_LARGE}");
            }
            TaskVerdict::VisitsFull => self.visits_full(f)?,
            TaskVerdict::NodesFull => self.nodes_full(f)?,
        }
        self.used(f)
    }
}

const YES: &str = "\
Proved of every run: whatever events come, in any order, accepted or refused, and
however long it goes on, no ready job ever has 0 or less time to its deadline.
Every state that a run can reach is simulated by one of the states kept below, no
kept state is doomed, and every event of a kept state leads to one that is
simulated again (promises: never_misses and closed of judge_tasks).";

const NO: &str = "\
Proved of the run below: every event in it is accepted on a new run, the forced ones
are at most 1,151, and the last state is late (promise: shown_late of judge_tasks).";

const TOO_LARGE: &str = "\
not explored (10): at most 4096 nodes and 65535 visits can be lent; ask for fewer
with --nodes and --visits";

// What is full is told in two texts: one with the words of both left open would be harder to read.
impl Grounds<'_> {
    fn visits_full<W: fmt::Write>(&self, f: &mut fmt::Formatter<W>) -> fmt::Result {
        let lent = self.lent_visits;
        writeln!(f, "undecided (11): all {lent} visits are used up\n")?;
        writeln!(
            f,
            "What is known: more than {lent} different states can be reached. No run was found to be"
        )?;
        writeln!(f, "late so far, which promises nothing.")?;
        advise(f, "--visits", lent < MOST_VISITS)
    }

    fn nodes_full<W: fmt::Write>(&self, f: &mut fmt::Formatter<W>) -> fmt::Result {
        let lent = self.lent_nodes;
        writeln!(f, "undecided (12): all {lent} nodes are in use\n")?;
        writeln!(
            f,
            "What is known: more than {lent} states can be reached, none of which simulates another."
        )?;
        writeln!(
            f,
            "No run was found to be late so far, which promises nothing."
        )?;
        advise(f, "--nodes", lent < MOST_NODES)
    }

    fn used<W: fmt::Write>(&self, f: &mut fmt::Formatter<W>) -> fmt::Result {
        let nodes = self.judgement.nodes;
        let visits = self.judgement.visits;
        let lent_nodes = self.lent_nodes;
        let lent_visits = self.lent_visits;
        writeln!(
            f,
            "states kept: {nodes} of at most {lent_nodes}, states visited: {visits} of at most {lent_visits}"
        )
    }
}

// What can be done where memory was too small.
fn advise<W: fmt::Write>(f: &mut fmt::Formatter<W>, option: &str, more: bool) -> fmt::Result {
    if more {
        writeln!(f, "Ask for more with {option}.")
    } else {
        writeln!(
            f,
            "No more can be lent: a table with fewer tasks or with coarser ticks needs less, and so"
        )?;
        writeln!(f, "does --kind periodic where the releases are periodic.")
    }
}
