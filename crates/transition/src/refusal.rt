// Why a system refuses an event, or has no forced event to tell.
ghost use Rattle.std.specs.Prelude.{◌≡◌, Some};
ghost use Rattle.transition.specs.Refusals.{number as number_of, number_positive, reason, shown as written};

use numbered_refusals::Numbered;
use std::fmt;

#[derive(Clone, Copy, Debug, PartialEq, Eq)]
pub enum Refusal<R> {
    // the state is late: nothing happens in it any more
    Late,
    // the system has no event of that number
    Lacking,
    // a forced event was asked for where nothing is doomed
    NotDoomed,
    // the state is none of this system's
    NotFitting,
    // a reason of the system's own
    Own(R),
}

impl<R: Numbered> Numbered for Refusal<R> {
    ghost number = { number_of R.number };

    ghost positive = { λ refusal. number_positive R.number R.positive refusal };

    fn number(&self) -> u8 {
        match self {
            Refusal::Late => 3,
            Refusal::Lacking => 4,
            Refusal::NotDoomed => 16,
            Refusal::NotFitting => 17,
            Refusal::Own(own) => own.number(),
        }
    }
}

impl<R> Refusal<R> {
    // The reason in plain words.
    pub fn reason(&self) -> &'static str
        ensures { result.now ≡ reason self.now }
    {
        match self {
            Refusal::Late => "the state is late",
            Refusal::Lacking => "there is no such event",
            Refusal::NotDoomed => "the state is not doomed",
            Refusal::NotFitting => "the state does not fit the system",
            Refusal::Own(_) => "the system refuses the event",
        }
    }
}

// The number and the reason, as in `3: the state is late`.
impl<R: Numbered> fmt::Display for Refusal<R> {
    ghost output = { λ r. Some (written R.number r) };

    fn fmt<W: fmt::Write>(&self, f: &mut fmt::Formatter<W>) -> fmt::Result {
        let number = self.number();
        let reason = self.reason();
        write!(f, "{number}: {reason}")
    }
}
