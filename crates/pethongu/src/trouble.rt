// Why a command ends with status 1 and a message.
use crate::faulty_file::FaultyFile;
use crate::misuse::MisuseWords;
use command_options::named::Named;
use command_reading::misuse::Misuse;
use policy_choice::WrongCount;
use std::alloc::{AllocError, AllocFailed};
use std::io;
use table_text::table::LONGEST;
use thiserror::Error;

#[derive(Debug, Drop, Error)]
pub(crate) enum Trouble<'a> {
    #[error("{0}")]
    Misused(MisuseWords<'a>),
    #[error("cannot read {name}: {error}")]
    NotRead { name: &'a str, error: io::Error },
    #[error("{name}: longer than {LONGEST} bytes")]
    TooLong { name: &'a str },
    #[error("{0}")]
    Faulty(FaultyFile<'a>),
    #[error("{} has {} numbers, and the table has {} tasks", .0.option.word(), .0.given, .0.tasks)]
    WrongCount(#[from] WrongCount),
    #[error("{0}")]
    Outside(#[from] io::Error),
    #[error("there is no memory left")]
    NoMemory,
}

// By hand: readers tell want of memory without an error of the allocator's.
impl From<AllocError> for Trouble<'_> {
    fn from(_e: AllocError) -> Self {
        Trouble::NoMemory
    }
}

impl<T: Drop> From<AllocFailed<T>> for Trouble<'_> {
    fn from(_e: AllocFailed<T>) -> Self {
        Trouble::NoMemory
    }
}

impl<'a> From<Misuse<'a>> for Trouble<'a> {
    fn from(misuse: Misuse<'a>) -> Trouble<'a> {
        match misuse {
            Misuse::NoMemory => Trouble::NoMemory,
            _ => Trouble::Misused(MisuseWords(misuse)),
        }
    }
}
