//! In which form a trace is written again.

/// In which form a trace is written again.
#[derive(Clone, Copy, Debug, PartialEq, Eq)]
pub enum Form {
    /// A line for each event, and one for the end mark.
    Lines,
    /// The trace in the second version of the format. A header of the first one says then where it comes from; all else is kept.
    SecondVersion,
}
