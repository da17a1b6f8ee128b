// Bytes of a file, shown so that any of them can be printed.
use std::fmt;

// How many bytes are shown of a long word.
const SHOWN: usize = 40;

// Bytes as they are where they can be printed, else by their numbers.
#[derive(Drop)]
pub struct Plain<'a>(pub &'a [u8]);

// The same between quotation marks.
#[derive(Drop)]
pub struct Quoted<'a>(pub &'a [u8]);

// Any other byte by its number, where `escape_ascii` would write a letter for a tab and a backslash before an apostrophe.
fn escape<W: fmt::Write>(byte: u8, f: &mut fmt::Formatter<W>) -> fmt::Result {
    match byte {
        b'"' | b'\\' => write!(f, "\\{}", char::from(byte)),
        b' '..=b'~' => write!(f, "{}", char::from(byte)),
        _ => write!(f, "\\x{byte:02x}"),
    }
}

impl fmt::Display for Plain<'_> {
    fn fmt<W: fmt::Write>(&self, f: &mut fmt::Formatter<W>) -> fmt::Result {
        for byte in self.0.iter().take(SHOWN) {
            escape(*byte, f)?;
        }
        if self.0.len() > SHOWN {
            let more = self.0.len() - SHOWN;
            write!(f, "... ({more} bytes more)")?;
        }
        Ok(())
    }
}

impl fmt::Display for Quoted<'_> {
    fn fmt<W: fmt::Write>(&self, f: &mut fmt::Formatter<W>) -> fmt::Result {
        write!(f, "\"{}\"", Plain(self.0))
    }
}
