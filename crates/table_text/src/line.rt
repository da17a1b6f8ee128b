// What one line of a table file says.
ghost use Rattle.std.specs.Prelude.{◌≡◌};
ghost use Rattle.table_text.specs.Figures.{level};
ghost use Rattle.table_text.specs.Pieces.{words};
ghost use Rattle.table_text.specs.Rows.{figure_in, six, row_in, task_in};

use crate::fault::Slip;
use crate::figures::{Figure, byte_value};
use crate::pieces::{Words, bare, word_at};
use task_table::task::{Criticality, Task};

// How many words a line with a task has.
const WORDS: usize = 6;

// The criticality that the word names.
fn level(word: &[u8]) -> Option<Criticality>
    ensures { result ≡ level word.now }
{
    match word {
        [b'H'] => Some(Criticality::High),
        [b'L'] => Some(Criticality::Low),
        _ => None,
    }
}

// The figure that stands at its place in the line.
fn figure_in(line: &[u8], figure: Figure) -> Result<u8, Slip>
    ensures { result ≡ figure_in (words line.now) figure }
{
    byte_value(word_at(line, figure.place())).ok_or(Slip::NoByte(figure))
}

// The task of a line that has six words.
fn six_words(line: &[u8]) -> Result<Task, Slip>
    ensures { result ≡ six (words line.now) }
{
    Ok(Task {
        criticality: level(word_at(line, 0)).ok_or(Slip::NoCriticality)?,
        period: figure_in(line, Figure::Period)?,
        deadline: figure_in(line, Figure::Deadline)?,
        budget_low: figure_in(line, Figure::BudgetLow)?,
        budget_high: figure_in(line, Figure::BudgetHigh)?,
        offset: figure_in(line, Figure::Offset)?,
    })
}

// The task of a line without a comment, or none where it has no words.
fn row(line: &[u8]) -> Result<Option<Task>, Slip>
    ensures { result ≡ row_in (words line.now) }
{
    match Words::of(line).count() {
        0 => Ok(None),
        WORDS => six_words(line).map(Some),
        count => Err(Slip::WordCount(count)),
    }
}

// The task that the line writes, or none where nothing stands before its comment.
pub fn read_task(line: &[u8]) -> Result<Option<Task>, Slip>
    ensures { result ≡ task_in line.now }
{
    row(bare(line))
}
