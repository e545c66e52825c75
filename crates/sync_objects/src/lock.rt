//! A lock, as contracts see it.

use task_pool::TaskId;

/// A lock or critical that is initialised.
#[derive(Clone, Copy, Debug, PartialEq, Eq)]
pub struct Lock {
    /// Its wait identifier.
    pub id: u32,
    /// The task that took it, if it isn't free.
    pub owner: Option<TaskId>,
}
