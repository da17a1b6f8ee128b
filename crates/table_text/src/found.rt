// What stands in a line of a table file, to tell it where a fault is.
ghost use Rattle.std.specs.Prelude.{◌≡◌, ◌-◌, [], slice_index_or};
ghost use Rattle.table_text.specs.Pieces.{bare, lines, words, words_left};

use crate::pieces::{Words, bare, line_at, word_at};

// What stands before the comment of the line of that number, which counts from 1.
fn row_found(bytes: &[u8], line: usize) -> &[u8]
    ensures { result.now ≡ bare (slice_index_or (lines bytes.now) (line - 1) []) }
{
    bare(line_at(bytes, line.saturating_sub(1)))
}

// The words of the line of that number, which counts from 1.
pub fn words_found(bytes: &[u8], line: usize) -> Words<'_>
    ensures { words_left result ≡ words (bare (slice_index_or (lines bytes.now) (line - 1) [])) }
{
    Words::of(row_found(bytes, line))
}

// The word at that place, which counts from 0, of the line of that number, which counts from 1.
pub fn word_found(bytes: &[u8], line: usize, place: usize) -> &[u8]
    ensures { result.now ≡ slice_index_or (words (bare (slice_index_or (lines bytes.now) (line - 1) []))) place [] }
{
    word_at(row_found(bytes, line), place)
}
