// Numbers from 0 to 255 with commas between them.
ghost use Rattle.std.specs.Prelude.{◌≡◌};
ghost use Rattle.number_list.specs.Lists.{Reads, Writes};
ghost use Rattle.number_list.specs.declared.list.ListError.TheVariants.{NoMemory};

use std::alloc::{AllocFailed, Global};
use table_text::figures::byte_value;
use table_text::pieces::Separator;

// Why a text gives no list.
#[derive(Clone, Copy, Debug, PartialEq, Eq)]
pub enum ListError {
    // it is no list of numbers from 0 to 255
    NoList,
    // there is no memory left to hold them
    NoMemory,
}

impl From<AllocFailed<u8>> for ListError {
    ghost from_gives = { λ _ e. e ≡ NoMemory };

    fn from(_unheld: AllocFailed<u8>) -> ListError {
        ListError::NoMemory
    }
}

// The numbers that the text writes; an empty text is the empty list.
pub fn read_list(heap: Global, text: &[u8]) -> Result<Vec<u8>, ListError>
    ensures reads { Reads text.now result }
    ensures writes { Writes text.now result }
{
    let mut numbers = Vec::new(heap);
    if text.is_empty() {
        return Ok(numbers);
    }
    for piece in Separator::Comma.pieces(text) {
        let number = byte_value(piece).ok_or(ListError::NoList)?;
        numbers.push(number)?;
    }
    Ok(numbers)
}
