// What a check of a lock finds.
use explorer::Outcome;

// An enum beside `Outcome`: who checks a lock reads of boats.
#[derive(Clone, Copy, Debug, PartialEq, Eq)]
pub enum Verdict {
    // no boat is ever overdue
    Safe,
    // some boat can be overdue: the last visit shows how
    Unsafe,
    // more chambers come about than there are nodes for
    NodesFull,
    // more chambers come about than there are visits for
    VisitsFull,
    // more memory is lent than exploring takes
    TooLarge,
}

// The outcome in the lock's words.
impl From<Outcome> for Verdict {
    ghost use Rattle.std.specs.Prelude.{◌≡◌};
    ghost use Rattle.lock_check.specs.Findings.{verdict_of};

    ghost from_gives = { λ outcome verdict. verdict ≡ verdict_of outcome };

    fn from(outcome: Outcome) -> Self {
        match outcome {
            Outcome::Schedulable => Verdict::Safe,
            Outcome::Unschedulable => Verdict::Unsafe,
            Outcome::NodesFull => Verdict::NodesFull,
            Outcome::VisitsFull => Verdict::VisitsFull,
            Outcome::TooLarge => Verdict::TooLarge,
        }
    }
}

// The verdict, and how many nodes and visits at the front of the lent memory tell of it.
// No `Judgement`, which holds a late run.
#[derive(Clone, Copy, Debug, PartialEq, Eq)]
pub struct Finding {
    pub verdict: Verdict,
    pub nodes: usize,
    pub visits: usize,
}
