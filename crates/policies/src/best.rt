// The best task so far.
ghost use Rattle.std.specs.Prelude.{◌≡◌};
ghost use Rattle.policies.specs.Leasts.{first_less};

// A task's number and its figure.
#[derive(Clone, Copy, Debug, PartialEq, Eq)]
pub struct Best {
    pub number: usize,
    pub figure: i16,
}

impl Best {
    // This one, unless the other has a smaller figure.
    pub(crate) fn or_less(self, other: Best) -> Best
        ensures { result ≡ first_less self other }
    {
        if self.figure <= other.figure {
            self
        } else {
            other
        }
    }
}
