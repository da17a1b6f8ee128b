// Refusals that are told by numbers: every layer has an enum of its own, and each case its number.
#![tactic(auto)]

ghost use Rattle.std.specs.Prelude.{◌≡◌, ℕ, ◌<◌, ◌==◌, is_ok};
ghost use Rattle.numbered_refusals.specs.Answers.{told as told_by};

pub trait Numbered {
    ghost number: { Self → ℕ };

    // The number by which the refusal is told.
    fn number(&self) -> u8
        ensures { result ≡ number self.now };

    // 0 is what is told of something that is not refused.
    ghost positive: { (refusal : Self) → 0 < number refusal };
}

// The number by which an answer is told: 0 where it is no refusal.
pub fn told<T, R: Numbered>(answer: &Result<T, R>) -> u8
    ensures answers { result ≡ told_by R.number answer.now }
    ensures accepted { (result == 0) ≡ is_ok answer.now }
{
    match answer {
        Ok(_) => 0,
        Err(refusal) => refusal.number(),
    }
}
