// What is found out about a system.
ghost use Rattle.verdict.specs.Maps.{Maps};

use transition::{Run, System};

// How a run came to be late: events that lead to a doomed state, forced events after them, and the late run.
#[derive(Drop)]
pub struct Failure<S: System> {
    pub events: Vec<u8>,
    pub forced: Vec<u8>,
    pub run: Run<S>,
}

// What exploring decides, where F is what is told of a late run. An enum beside `Outcome`: only here is a run at hand.
#[derive(Debug, Drop, PartialEq, Eq)]
pub enum Verdict<F> {
    // no run is ever late
    Schedulable,
    // a run is late: this one
    Unschedulable(F),
    // more memory is lent than exploring takes
    TooLarge,
    // more states are reached than there are visits for
    VisitsFull,
    // more states are kept than there are nodes for
    NodesFull,
}

impl<F> Verdict<F> {
    // The same verdict, with the late run told as a G.
    pub fn retold<G: From<F>>(self) -> Verdict<G>
        ensures { Maps G.from_gives self result }
    {
        match self {
            Verdict::Schedulable => Verdict::Schedulable,
            Verdict::Unschedulable(late) => Verdict::Unschedulable(G::from(late)),
            Verdict::TooLarge => Verdict::TooLarge,
            Verdict::VisitsFull => Verdict::VisitsFull,
            Verdict::NodesFull => Verdict::NodesFull,
        }
    }
}

// The verdict, and how many nodes and visits at the front of the lent memory tell of it.
#[derive(Drop)]
pub struct Judgement<F> {
    pub verdict: Verdict<F>,
    pub nodes: usize,
    pub visits: usize,
}
