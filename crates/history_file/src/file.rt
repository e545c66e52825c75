//! What a history file holds.

use omp_model::History;
use ompt_calls::Sequence;

/// The version of the format.
pub const VERSION: u16 = 1;

/// The greatest number of entries: a history has at most five for each of 524,288 turns.
pub const ENTRY_LIMIT: u32 = 2_621_440;

/// The length in bytes of the longest file: a header, 65,536 bytes of text, [`ENTRY_LIMIT`] stores of 15 bytes, and an end.
pub const HISTORY_LIMIT: u32 = 39_387_169;

/// The four bytes with which a file begins, `OMHF`, as a number.
pub(crate) const MAGIC: u32 = 0x4F4D_4846;

/// The greatest number of threads.
pub(crate) const THREAD_LIMIT: u8 = 16;

/// The greatest number of silent steps.
pub(crate) const STEP_LIMIT: u32 = 30_000_000;

/// The greatest length of a text, in bytes.
pub(crate) const TEXT_LIMIT: u32 = 65_536;

/// The bytes of a program's text.
pub type FileText = Sequence<u8>;

/// A run that somebody else can check.
#[derive(Drop)]
pub struct HistoryFile {
    /// How many threads the run had: 1 to 16.
    pub threads: u8,
    /// The callbacks that were registered: bit n for number n in `ompt_callbacks_t` (OpenMP 5.2, 19.4.2). Each is one that is called always.
    pub mask: u64,
    /// How many silent steps the run might make: 1 to 30,000,000.
    pub steps: u32,
    /// The program's text, at most 65,536 bytes.
    pub text: FileText,
    /// The run's history, at most [`ENTRY_LIMIT`] entries.
    pub history: History,
    /// The run's status: 0 done, 1 returned, 4 trapped, 5 deadlock, 6 limit.
    pub status: u8,
    /// What main returned, as two's complement, or the number of the trap or of the limit; 0 at the other statuses.
    pub detail: u32,
}
