//! Why a run ended.

/// The cause in which a run ended.
#[derive(Clone, Copy, PartialEq, Eq)]
pub enum Cause {
    /// Every thread that was made has ended, and main returned 0.
    Done,
    /// Every thread that was made has ended, and main returned this other number.
    Returned(i32),
    /// The last turn met this trap.
    Trapped(u8),
    /// No thread can go on, and none is inside a callback.
    Deadlock,
    /// The last turn met this limit.
    Limit(u8),
    /// The runner found no memory. No state has this cause: the history stops at some entry.
    Memory,
}
