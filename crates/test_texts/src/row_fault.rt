//! Why a line of a table can't be read.

use std::alloc::{AllocError, AllocFailed};
use thiserror::Error;

/// Why a line of a table can't be read.
#[derive(Clone, Copy, Debug, Error)]
pub(crate) enum RowFault {
    /// A row stands before the first `ask`.
    #[error("nothing is asked")]
    NothingAsked,
    /// An `ask` with another word than those of questions.
    #[error("no such question")]
    NoQuestion,
    /// An `ask` in a frame that no line above begins.
    #[error("no such frame")]
    NoFrame,
    /// A line of a frame before the first frame.
    #[error("no frame begins above")]
    OutsideFrame,
    /// A backslash with something behind it that isn't told at [`crate::pattern`], or a repetition that doesn't end.
    #[error("a backslash that means nothing")]
    BadEscape,
    /// A text of more than 65,536 bytes.
    #[error("too long a text")]
    TooLong,
    /// An answer without a place where its question wants one.
    #[error("no place")]
    NoPlace,
    /// No memory was left.
    #[error("memory")]
    Memory,
}

impl From<AllocError> for RowFault {
    fn from(_error: AllocError) -> RowFault {
        RowFault::Memory
    }
}

impl<T: Drop> From<AllocFailed<T>> for RowFault {
    fn from(_error: AllocFailed<T>) -> RowFault {
        RowFault::Memory
    }
}
