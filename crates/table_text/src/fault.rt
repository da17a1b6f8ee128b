// What can be wrong with a table file.
ghost use Rattle.std.specs.Prelude.{◌≡◌};
ghost use Rattle.table_text.specs.declared.fault.Slip.TheVariants.{Refused};

use crate::figures::Figure;
use task_table::refusal::DraftRefusal;

// What is wrong with a line.
#[derive(Clone, Copy, Debug, PartialEq, Eq)]
pub enum Slip {
    // it has another number of words than six
    WordCount(usize),
    // its first word is neither H nor L
    NoCriticality,
    // the word of this figure is no number from 0 to 255
    NoByte(Figure),
    // the draft refuses its task
    Refused(DraftRefusal),
}

impl From<DraftRefusal> for Slip {
    ghost from_gives = { λ refusal slip. slip ≡ Refused refusal };

    fn from(refusal: DraftRefusal) -> Slip {
        Slip::Refused(refusal)
    }
}

// What is wrong, and with which line, which counts from 1.
#[derive(Clone, Copy, Debug, PartialEq, Eq)]
pub struct Fault {
    pub line: usize,
    pub slip: Slip,
}
