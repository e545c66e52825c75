//! The entries of a run's history.

use ompt_calls::{Sequence, Target};

/// What one entry of a history is.
#[derive(Clone, Copy, PartialEq, Eq)]
pub enum What {
    /// One turn of the thread.
    Go,
    /// The tool of the thread's event stores this number into a data word.
    Put(Target, u64),
    /// The callback of the thread's event has returned, and the event's result takes hold.
    Back,
}

/// One entry of a history: what happened, and on which thread.
#[derive(Clone, Copy, PartialEq, Eq)]
pub struct Entry {
    /// The thread's number, from 0.
    pub thread: u8,
    /// What happened.
    pub what: What,
}

/// The entries of a run, in order.
pub type History = Sequence<Entry>;
