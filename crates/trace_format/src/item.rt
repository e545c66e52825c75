//! The items of which a trace consists.

use crate::trace::{EndMark, Header};
use ompt_calls::EventRecord;

/// What a reader has come to.
#[derive(Clone, Copy, PartialEq, Eq)]
pub enum Item {
    /// Nothing that is whole.
    More,
    /// The header.
    Header(Header),
    /// An event.
    Event(EventRecord),
    /// The end mark.
    End(EndMark),
}
