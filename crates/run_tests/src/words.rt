// The words of a case, read one after another.
use canal_lock::Chamber;
use std::str::SplitWhitespace;
use std::test::Fail;

// The next word as a small number: three lines, as in other tests, since a crate for them would be longer.
pub(crate) fn byte(words: &mut SplitWhitespace<'_>) -> Result<u8, Fail> {
    let word = words.next().ok_or("a word is missing")?;
    Ok(word.parse::<u8>()?)
}

// The next four words as a chamber, 1 for a boat.
pub(crate) fn chamber(words: &mut SplitWhitespace<'_>) -> Result<Chamber, Fail> {
    let turn = byte(words)?;
    let boat = byte(words)? == 1;
    let wait = byte(words)?;
    let pause = byte(words)?;
    Ok(Chamber {
        turn,
        boat,
        wait,
        pause,
    })
}
