//! What comes next in a task's code, as far as its form tells it.

use crate::point::{SyncKind, SyncStage};

/// What comes next in a task's code, told without a look at cells.
#[derive(Clone, Copy)]
pub enum Upcoming {
    /// A silent step, which may have to be told the next chunk or section.
    Step,
    /// An event for which the code waits for nobody.
    Event,
    /// The code has ended.
    End,
    /// The end of the region that the task has forked.
    RegionEnd,
    /// An event of a barrier or taskwait.
    Sync { kind: SyncKind, stage: SyncStage },
    /// The lock or critical with this wait identifier comes to be owned.
    Acquire(u32),
    /// An `omp_test_lock` looks whether the lock with this wait identifier is owned: a silent step where it is, else an event.
    Test(u32),
}
