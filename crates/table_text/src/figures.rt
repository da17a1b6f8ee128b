// The figures of a task as a line writes them.
ghost use Rattle.std.specs.Prelude.{◌≡◌, ◌≤◌, IfSome};
ghost use Rattle.table_text.specs.Figures.{place, name, value_within, byte_value};

use std::fmt;

// A figure of a task, by the place of its word in the line.
#[derive(Clone, Copy, Debug, PartialEq, Eq)]
pub enum Figure {
    Period,
    Deadline,
    BudgetLow,
    BudgetHigh,
    Offset,
}

impl Figure {
    // The place of its word, which counts from 0: the criticality stands before the figures.
    pub fn place(self) -> usize
        ensures { result ≡ place self }
    {
        match self {
            Figure::Period => 1,
            Figure::Deadline => 2,
            Figure::BudgetLow => 3,
            Figure::BudgetHigh => 4,
            Figure::Offset => 5,
        }
    }

    pub fn name(self) -> &'static str
        ensures { result.now ≡ name self }
    {
        match self {
            Figure::Period => "period",
            Figure::Deadline => "deadline",
            Figure::BudgetLow => "low budget",
            Figure::BudgetHigh => "high budget",
            Figure::Offset => "offset",
        }
    }
}

impl fmt::Display for Figure {
    fn fmt<W: fmt::Write>(&self, f: &mut fmt::Formatter<W>) -> fmt::Result {
        f.pad(self.name())
    }
}

// The number that the word writes in decimal digits, where it is at most that.
pub fn value_within(word: &[u8], most: u32) -> Option<u32>
    ensures answers { result ≡ value_within most word.now }
    ensures within { IfSome result (λ value. value ≤ most) }
{
    if word.is_empty() {
        return None;
    }
    // digit by digit, since `parse` takes a sign in front, which no figure has
    let mut value: u64 = 0;
    for byte in word {
        let digit = char::from(*byte).to_digit(10)?;
        value = 10 * value + u64::from(digit);
        if value > u64::from(most) {
            return None;
        }
    }
    u32::try_from(value).ok()
}

// The largest number that a byte holds.
const LARGEST: u32 = 255;

// The number that the word writes in decimal digits, where it is one from 0 to 255.
pub fn byte_value(word: &[u8]) -> Option<u8>
    ensures { result ≡ byte_value word.now }
{
    u8::try_from(value_within(word, LARGEST)?).ok()
}
