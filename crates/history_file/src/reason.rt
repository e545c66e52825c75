//! Why bytes are refused that are no history file.

ghost use Rattle.std.specs.Prelude.{◌≡◌};
ghost use Rattle.history_file.specs.Refusing.{number_of_reason};

use std::alloc::{AllocError, AllocFailed};
use thiserror::Error;

/// What is wrong with the bytes.
#[derive(Clone, Copy, Debug, PartialEq, Eq)]
pub enum HistoryReason {
    /// The first four bytes aren't those of a history file.
    BadMagic,
    /// The version isn't known.
    BadVersion,
    /// The threads, the mask, the steps or the text's length can't be.
    BadHeader,
    /// The kind of an entry isn't known, or an entry stands behind the greatest number of them.
    UnknownEntry,
    /// A field of an entry, the status or the detail has a value that it can't have.
    BadEntry,
    /// A byte stands after the end.
    AfterEnd,
    /// The bytes end before the file does.
    Truncated,
    /// The count isn't the number of entries.
    BadCount,
    /// There are more bytes than the longest file has.
    TooLong,
}

impl HistoryReason {
    /// The reason's number, from 1 to 9.
    pub fn number(self) -> u8
        ensures { result ≡ number_of_reason self }
    {
        match self {
            HistoryReason::BadMagic => 1,
            HistoryReason::BadVersion => 2,
            HistoryReason::BadHeader => 3,
            HistoryReason::UnknownEntry => 4,
            HistoryReason::BadEntry => 5,
            HistoryReason::AfterEnd => 6,
            HistoryReason::Truncated => 7,
            HistoryReason::BadCount => 8,
            HistoryReason::TooLong => 9,
        }
    }
}

/// Why no history file was read.
#[derive(Clone, Copy, Debug, PartialEq, Eq, Error)]
pub enum HistoryFault {
    /// The bytes are no file. The offset, counted from 0, is that of the first byte of the field that is wrong, of the first byte after the
    /// end, the length of bytes that end too early, or [`HISTORY_LIMIT`](crate::HISTORY_LIMIT).
    #[error("history refused {} at {}", .0.number(), .1)]
    Refused(HistoryReason, u64),
    /// No memory was left.
    #[error("memory")]
    Memory,
}

impl From<AllocError> for HistoryFault {
    ghost use Rattle.history_file.specs.declared.reason.HistoryFault.TheVariants.{Memory};

    ghost from_gives = { λ _ fault. fault ≡ Memory };

    fn from(_error: AllocError) -> HistoryFault {
        HistoryFault::Memory
    }
}

impl<T: Drop> From<AllocFailed<T>> for HistoryFault {
    ghost use Rattle.history_file.specs.declared.reason.HistoryFault.TheVariants.{Memory};

    ghost from_gives = { λ _ fault. fault ≡ Memory };

    fn from(_error: AllocFailed<T>) -> HistoryFault {
        HistoryFault::Memory
    }
}
