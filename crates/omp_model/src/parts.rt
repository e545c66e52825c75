//! The flat parts of the machine's state.

use team_parts::TEAM_LIMIT;

/// How far a thread has come.
#[derive(Clone, Copy)]
pub enum ThreadStage {
    /// It wasn't made.
    Unmade,
    /// It was made, and hasn't begun.
    Made,
    /// It has begun, and hasn't ended.
    Begun,
    /// It has ended.
    Ended,
}

/// A parallel region (OpenMP 5.2, 10.1), without what its members meet.
#[derive(Clone, Copy)]
pub struct RegionHead {
    /// The encountering task, or 0 for the implicit region of the initial task.
    pub task: u32,
    /// How many members its team has.
    pub size: u8,
    /// What a tool last stored into its data word, or 0.
    pub word: u64,
    /// The members' implicit tasks, by number, or 0 for each that hasn't begun.
    pub members: [u32; TEAM_LIMIT],
    /// The members that have left the region.
    pub left: [bool; TEAM_LIMIT],
    /// Whether the event of its end has come.
    pub ended: bool,
}
