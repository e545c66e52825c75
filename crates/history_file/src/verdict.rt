//! What a rerun of a history comes to.

use ompt_calls::{Call, Sequence};

/// A call that was heard: its event is registered, and its callback returned.
#[derive(Clone, Copy)]
pub struct HeardCall {
    /// The position of its event in the history, from 0.
    pub seq: u32,
    /// The thread on which it was heard.
    pub thread: u8,
    /// The callback with its arguments.
    pub call: Call,
}

/// The calls that were heard, in the order of their events.
pub type HeardCalls = Sequence<HeardCall>;

/// What a rerun of a history comes to.
#[derive(Drop)]
pub enum Verdict {
    /// The file is a certificate, and these calls are heard of its history.
    Legal(HeardCalls),
    /// The file is none: so many of its first entries are legal together, and no more.
    Illegal(u32),
}
