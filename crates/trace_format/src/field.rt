//! The fields of a trace.

/// Which field of a trace it is.
#[derive(Clone, Copy)]
pub enum Field {
    /// The four bytes with which a trace begins.
    Magic,
    /// The header's version.
    Version,
    /// The header's number of threads.
    Threads,
    /// The header's origin.
    Origin,
    /// The header's mask.
    Mask,
    /// The number that begins each event and the end mark: that of the callback, or 0.
    Number,
    /// The sequence number of an event.
    Seq,
    /// Another field of an event or of the end mark, by its place, counted from 0 for the number.
    Numbered(u8),
    /// The end mark's count of events.
    Count,
}
