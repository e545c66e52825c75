//! What a silent step has to be told before it can be made.

/// What a task's code asks.
#[derive(Clone, Copy)]
pub enum Ask {
    /// The next chunk of the loop that the task shares out.
    Chunk,
    /// The next section of the construct that the task is in.
    Section,
    /// Whether the lock with this wait identifier is owned by nobody.
    LockFree(u32),
}

/// What it is told.
#[derive(Clone, Copy)]
pub enum Answer {
    /// The first iteration of the chunk, from 0, and how many there are. `None` where no iteration is left for the task's thread.
    Chunk(Option<(u64, u64)>),
    /// The section's number, from 0. `None` where none is left.
    Section(Option<u32>),
    /// Whether the lock is owned by nobody.
    Free(bool),
}
