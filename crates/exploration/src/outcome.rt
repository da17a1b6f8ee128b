// How exploring ends.
ghost use Rattle.std.specs.Prelude.{◌≡◌};
ghost use Rattle.exploration.specs.Outcomes.{number};

// One enum, and no Result: what decides nothing comes with both counts as well.
#[derive(Clone, Copy, Debug, PartialEq, Eq)]
pub enum Outcome {
    // no run is ever late
    Schedulable,
    // some run ends late: that of the last visit, with the forced events after it
    Unschedulable,
    // more memory is lent than exploring takes
    TooLarge,
    // a state was to be entered, and no visit was unused
    VisitsFull,
    // a state was to be kept, and no node was free
    NodesFull,
}

impl Outcome {
    // The number by which a refusal to decide is told; a decision has none.
    pub fn number(self) -> Option<u8>
        ensures { result ≡ number self }
    {
        match self {
            Outcome::Schedulable | Outcome::Unschedulable => None,
            Outcome::TooLarge => Some(10),
            Outcome::VisitsFull => Some(11),
            Outcome::NodesFull => Some(12),
        }
    }
}
