// Sources of tables, and the words that name them.
ghost use Rattle.std.specs.Prelude.{◌≡◌};
ghost use Rattle.table_source.specs.Sources.{is_option, source, from_source};

// Where a table is read from.
#[derive(Clone, Copy, Debug, PartialEq, Eq)]
pub enum Source<'a> {
    Input,
    File(&'a str),
}

impl<'a> Source<'a> {
    // The source that the word names: the sign '-' is standard input.
    pub fn named(word: &'a str) -> Source<'a>
        ensures { from_source result ≡ source word.now }
    {
        if word == "-" {
            Source::Input
        } else {
            Source::File(word)
        }
    }
}

// Whether the word is an option: the sign '-' alone is none.
pub fn is_option(word: &str) -> bool
    ensures { result ≡ is_option word.now }
{
    matches!(word.as_bytes(), [b'-', _, ..])
}
