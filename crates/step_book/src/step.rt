//! What a thread's visit to a book comes to.

use omp_model::Cause;
use ompt_calls::{Call, Snapshot};

/// What a thread's visit to a book came to.
#[derive(Drop)]
pub enum Step {
    /// An event whose callback is registered: the place of its Go in the history, its call, and what can be inquired during it. The
    /// thread owes the answer of its tool.
    Told(u32, Call, Snapshot),
    /// Silent steps alone, or an event whose callback isn't registered.
    Quiet,
    /// Nothing: the thread can't go on as long as no other one does.
    NotYet,
    /// The run has ended in this cause, by this turn or before it.
    Ended(Cause),
}
