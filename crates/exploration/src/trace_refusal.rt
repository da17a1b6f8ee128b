// Why the events that lead to a visit are not told.
ghost use Rattle.exploration.specs.TraceRefusals.{number as number_of, number_positive};

use numbered_refusals::Numbered;

#[derive(Clone, Copy, Debug, PartialEq, Eq)]
pub enum TraceRefusal {
    // no visit has that number
    NoSuchVisit,
    // the visits from there back do not lead to a start
    BrokenChain,
    // there are more events than room for them
    ListTooShort,
}

impl Numbered for TraceRefusal {
    ghost number = { number_of };

    ghost positive = { λ refusal. number_positive refusal };

    fn number(&self) -> u8 {
        match self {
            TraceRefusal::NoSuchVisit => 13,
            TraceRefusal::BrokenChain => 14,
            TraceRefusal::ListTooShort => 15,
        }
    }
}
