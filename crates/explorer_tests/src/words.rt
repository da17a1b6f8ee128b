// The words of a case, read one after another.
use canal_lock::Lock;
use std::num::ParseIntError;
use std::str::{FromStr, SplitWhitespace};
use std::test::Fail;

// The next word as a number: three lines, as in other tests, since a crate for them would be longer.
pub(crate) fn number<N: FromStr<Err = ParseIntError>>(
    words: &mut SplitWhitespace<'_>,
) -> Result<N, Fail> {
    let word = words.next().ok_or("a word is missing")?;
    Ok(word.parse::<N>()?)
}

// The next three words as the figures of a lock.
pub(crate) fn lock(words: &mut SplitWhitespace<'_>) -> Result<Lock, Fail> {
    let fill = number(words)?;
    let gap = number(words)?;
    let patience = number(words)?;
    Ok(Lock::new(fill, gap, patience))
}
