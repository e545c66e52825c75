//! Why a line of a table can't be read.

use std::alloc::AllocError;
use std::num::ParseIntError;
use thiserror::Error;

/// Why a line of a table of rows can't be read, or a row not be tried.
#[derive(Clone, Copy, Debug, Error)]
pub enum RowFault {
    /// A line of a row before the first `row`.
    #[error("no row begins above")]
    OutsideRow,
    /// A line that begins otherwise than the lines of a table.
    #[error("no such line")]
    NoSuchLine,
    /// A number that is none, or is too great.
    #[error("no number")]
    NoNumber,
    /// Digits that are no bytes.
    #[error("no bytes")]
    NoBytes,
    /// A word that is no text.
    #[error("no word")]
    NoWord,
    /// A callback that isn't known, or has other numbers.
    #[error("no such event")]
    NoSuchEvent,
    /// No memory was left.
    #[error("memory")]
    Memory(#[from(alloc)] AllocError),
}

impl From<ParseIntError> for RowFault {
    fn from(_error: ParseIntError) -> RowFault {
        RowFault::NoNumber
    }
}
