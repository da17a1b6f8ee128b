// One event of a run.
ghost use Rattle.std.specs.Prelude.{◌≡◌};
ghost use Rattle.transition.specs.Runs.{told as told_by};

use numbered_refusals::{Numbered, told};
use transition::Refusal;

// The event, what the run answered, and the state after it.
#[derive(Clone, Copy, Debug, PartialEq, Eq)]
pub struct Step<T, R> {
    pub event: u8,
    pub answer: Result<(), Refusal<R>>,
    pub state: T,
}

impl<T, R: Numbered> Step<T, R> {
    // The number by which the answer is told: 0 where the event is accepted, else the refusal's.
    pub fn told(&self) -> u8
        ensures { result ≡ told_by R.number self.now.answer }
    {
        told(&self.answer)
    }
}
