// The faults of a table file: what was found, and what was expected.
use crate::bytes::{Plain, Quoted};
use std::fmt;
use table_text::fault::{Fault, Slip};
use table_text::found::{word_found, words_found};
use task_table::refusal::DraftRefusal;

// A fault with the file that it is in.
#[derive(Drop)]
pub struct Told<'a> {
    pub bytes: &'a [u8],
    pub fault: Fault,
}

impl Told<'_> {
    // The word at that place of the line, which counts from 0.
    fn word(&self, place: usize) -> &[u8] {
        word_found(self.bytes, self.fault.line, place)
    }
}

// The rule that a refused task breaks.
fn rule(refusal: DraftRefusal) -> &'static str {
    match refusal {
        DraftRefusal::NinthTask => "expected no more than eight tasks",
        DraftRefusal::WrongTask => {
            "expected 1 <= low budget <= high budget <= deadline <= period <= 127, offset <= 127, and equal budgets for L"
        }
    }
}

impl fmt::Display for Told<'_> {
    fn fmt<W: fmt::Write>(&self, f: &mut fmt::Formatter<W>) -> fmt::Result {
        let Fault { line, slip } = self.fault;
        write!(f, "line {line}: ")?;
        match slip {
            Slip::WordCount(count) => {
                let words = if count == 1 { "word" } else { "words" };
                write!(f, "found {count} {words}, expected 6: ")?;
                write!(
                    f,
                    "H or L, period, deadline, low budget, high budget, offset"
                )
            }
            Slip::NoCriticality => {
                let word = Quoted(self.word(0));
                write!(f, "found {word}, expected H or L for the criticality")
            }
            Slip::NoByte(figure) => {
                let word = Quoted(self.word(figure.place()));
                write!(
                    f,
                    "found {word}, expected a number from 0 to 255 for the {figure}"
                )
            }
            Slip::Refused(refusal) => {
                write!(f, "{refusal}: found")?;
                let mut words = words_found(self.bytes, line);
                // Six places, whatever the line has: a word that is not there is empty.
                for _ in 0..6 {
                    write!(f, " {}", Plain(words.next().unwrap_or(&[])))?;
                }
                write!(f, ", {}", rule(refusal))
            }
        }
    }
}
