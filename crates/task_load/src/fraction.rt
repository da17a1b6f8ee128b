// Fractions of whole numbers.
ghost use Rattle.std.specs.Prelude.{◌≡◌, ◌+◌, ◌*◌, ◌^◌, ◌<◌};
ghost use Rattle.std.specs.Int.{IsGcd};
ghost use Rattle.task_load.specs.Fractions.{plus, Same, Lowest, whole_in};

use std::fmt;

#[derive(Clone, Copy, Debug, PartialEq, Eq)]
pub struct Fraction {
    pub numerator: u64,
    pub denominator: u64,
}

// The greatest number that divides both, which the standard library does not have.
fn common_divisor(a: u64, b: u64) -> u64
    ensures { IsGcd a b result }
{
    let (mut x, mut y) = (a, b);
    while y != 0 {
        (x, y) = (y, x % y);
    }
    x
}

impl Fraction {
    // The sum with a fraction of two bytes.
    pub(crate) fn plus(self, numerator: u8, denominator: u8) -> Fraction
        requires above_fits { self.numerator * denominator + numerator * self.denominator < 2 ^ 64 }
        requires below_fits { self.denominator * denominator < 2 ^ 64 }
        ensures { result ≡ plus self numerator denominator }
    {
        let other = u64::from(denominator);
        Fraction {
            numerator: self.numerator * other + u64::from(numerator) * self.denominator,
            denominator: self.denominator * other,
        }
    }

    // The same fraction in lowest terms.
    pub(crate) fn reduced(self) -> Fraction
        requires { 0 < self.denominator }
        ensures same { Same result self }
        ensures lowest { Lowest result }
    {
        let divisor = common_divisor(self.numerator, self.denominator);
        Fraction {
            numerator: self.numerator / divisor,
            denominator: self.denominator / divisor,
        }
    }

    // Whether it is above 1.
    pub fn is_above_one(&self) -> bool
        ensures { result ≡ whole_in self.now }
    {
        self.numerator > self.denominator
    }
}

impl fmt::Display for Fraction {
    fn fmt<W: fmt::Write>(&self, f: &mut fmt::Formatter<W>) -> fmt::Result {
        let Fraction {
            numerator,
            denominator,
        } = *self;
        if denominator == 1 {
            write!(f, "{numerator}")
        } else {
            write!(f, "{numerator}/{denominator}")
        }
    }
}
