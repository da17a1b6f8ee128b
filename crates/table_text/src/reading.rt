// A table file that is being read.
ghost use Rattle.std.specs.Prelude.{◌≡◌};
ghost use Rattle.table_text.specs.declared.reading.ReadError.TheVariants.{NoMemory};

use crate::fault::Fault;
use std::alloc::AllocFailed;
use task_table::draft::Draft;

// The tasks and the faults that were found so far.
#[derive(Drop)]
pub(crate) struct Reading {
    pub(crate) draft: Draft,
    pub(crate) faults: Vec<Fault>,
}

// Why a file gives no table.
#[derive(Debug, Drop)]
pub enum ReadError {
    // it has faults, in the order of their lines
    Wrong(Vec<Fault>),
    // it is longer than any table needs to be
    TooLong,
    // there is no memory left to tell its faults
    NoMemory,
}

impl From<AllocFailed<Fault>> for ReadError {
    ghost from_gives = { λ _ e. e ≡ NoMemory };

    fn from(_untold: AllocFailed<Fault>) -> ReadError {
        ReadError::NoMemory
    }
}
