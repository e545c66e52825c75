//! How the reading of a trace ended.

use trace_format::Refusal;

/// How the reading of a trace ended.
#[derive(Clone, Copy, Debug, PartialEq, Eq)]
pub enum Copied {
    /// The input was read to its end, and is a trace.
    Whole,
    /// The input is no trace.
    Refused(Refusal),
    /// A read failed.
    ReadFault,
    /// A write failed.
    WriteFault,
    /// There was no memory for a line.
    Memory,
}
