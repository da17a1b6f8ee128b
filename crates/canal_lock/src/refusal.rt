// Why no boat comes to the lock.
ghost use Rattle.canal_lock.specs.Refusals.{number as number_of, number_positive};

use numbered_refusals::Numbered;

#[derive(Clone, Copy, Debug, PartialEq, Eq)]
pub enum LockRefusal {
    // one waits already
    OneWaits,
    // the one before came too short a time ago
    TooSoon,
}

impl Numbered for LockRefusal {
    ghost number = { number_of };

    ghost positive = { λ refusal. number_positive refusal };

    fn number(&self) -> u8 {
        match self {
            LockRefusal::OneWaits => 1,
            LockRefusal::TooSoon => 2,
        }
    }
}
