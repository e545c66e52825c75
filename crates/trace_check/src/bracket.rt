//! What can be open on a thread.

ghost use Rattle.std.specs.Prelude.{◌≡◌};

/// What can be open on a thread, with the numbers of regions and tasks.
#[derive(Clone, Copy)]
pub enum Bracket {
    /// From `parallel_begin` to `parallel_end`: this region.
    Parallel(u32),
    /// An implicit or initial task, from its begin to its end.
    Implicit(u32),
    /// From the switch from a task, to another one, to the completion of that one.
    Explicit(u32, u32),
    /// A work that is shared, as a loop, sections or a single: its parallel region, task, kind and count.
    Worksharing(u32, u32, u32, u64),
    /// A masked region of this task.
    Masking(u32),
    /// A synchronization region of this task, of this kind.
    Syncing(u32, u32),
    /// The wait in one.
    Waiting(u32, u32),
}
