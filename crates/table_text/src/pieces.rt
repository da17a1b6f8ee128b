// Where bytes are separated into lines, words and other pieces.
ghost use Rattle.std.specs.Prelude.{◌≡◌, ◌<◌, [], ◌∷◌, length, position, IfSome, slice_index_or};
ghost use Rattle.std.specs.Iterator.{YieldsFirstRef, item_count};
ghost use Rattle.std.specs.List.{before_first, slice_split};
ghost use Rattle.std.specs.Option.{option_map};
ghost use Rattle.table_text.specs.Pieces.{separates, bare, pieces_behind, lines, pieces_left, words, words_left};

#[derive(Clone, Copy, Debug, PartialEq, Eq)]
pub enum Separator {
    // ends a line
    Newline,
    // stands between words
    Blank,
    // begins a comment
    Hash,
    // stands between the numbers of a list
    Comma,
}

impl Separator {
    fn separates(self, byte: u8) -> bool
        ensures { result ≡ separates self byte }
    {
        match self {
            Separator::Newline => byte == b'\n',
            Separator::Blank => byte == b' ' || byte == b'\t' || byte == b'\r',
            Separator::Hash => byte == b'#',
            Separator::Comma => byte == b',',
        }
    }

    // The place of the first separator, if there is one.
    fn position(self, bytes: &[u8]) -> Option<usize>
        ensures { result ≡ position (separates self) bytes.now }
    {
        bytes.iter().position(|byte| self.separates(*byte))
    }

    // The first piece, and what stands behind the separator that ends it, if one does.
    pub fn next_piece<'a>(self, bytes: &'a [u8]) -> (&'a [u8], Option<&'a [u8]>)
        ensures cut { slice_split (separates self) bytes.now ≡ result.0.now ∷ pieces_behind (separates self) (option_map (λ x. x.now) result.1) }
        ensures first { result.0.now ≡ before_first (separates self) bytes.now }
        ensures shorter { IfSome result.1 (λ more. length more.now < length bytes.now) }
    {
        match self.position(bytes) {
            Some(end) => (&bytes[..end], Some(&bytes[end + 1..])),
            None => (bytes, None),
        }
    }

    // What stands between the separators, one piece more than there are of these.
    pub fn pieces(self, bytes: &[u8]) -> Pieces<'_>
        ensures { pieces_left result ≡ slice_split (separates self) bytes.now }
    {
        Pieces {
            separator: self,
            rest: Some(bytes),
        }
    }
}

// Pieces, one after the other.
#[derive(Drop)]
pub struct Pieces<'a> {
    separator: Separator,
    // what stands behind the pieces given so far, and nothing once the last is given
    rest: Option<&'a [u8]>,
}

impl<'a> Iterator for Pieces<'a> {
    type Item = &'a [u8];

    ghost next_gives = { YieldsFirstRef pieces_left };

    ghost remaining = { item_count pieces_left };

    fn next(&mut self) -> Option<&'a [u8]> {
        let (piece, rest) = self.separator.next_piece(self.rest?);
        self.rest = rest;
        Some(piece)
    }
}

// The words of a line, one after the other: its pieces between blanks that are not empty.
#[derive(Drop)]
pub struct Words<'a>(Pieces<'a>);

impl Words<'_> {
    pub fn of(line: &[u8]) -> Words<'_>
        ensures { words_left result ≡ words line.now }
    {
        Words(Separator::Blank.pieces(line))
    }
}

impl<'a> Iterator for Words<'a> {
    type Item = &'a [u8];

    ghost next_gives = { YieldsFirstRef words_left };

    ghost remaining = { item_count words_left };

    fn next(&mut self) -> Option<&'a [u8]> {
        self.0.find(|piece| !piece.is_empty())
    }
}

// The line without its comment.
pub(crate) fn bare(line: &[u8]) -> &[u8]
    ensures { result.now ≡ bare line.now }
{
    let (before, _) = Separator::Hash.next_piece(line);
    before
}

// The word at that place, which counts from 0, or nothing where there are fewer.
pub(crate) fn word_at(line: &[u8], place: usize) -> &[u8]
    ensures { result.now ≡ slice_index_or (words line.now) place [] }
{
    Words::of(line).nth(place).unwrap_or(&[])
}

// The line at that place, which counts from 0, or nothing where there are fewer.
pub(crate) fn line_at(bytes: &[u8], place: usize) -> &[u8]
    ensures { result.now ≡ slice_index_or (lines bytes.now) place [] }
{
    Separator::Newline.pieces(bytes).nth(place).unwrap_or(&[])
}
