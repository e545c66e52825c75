//! Tasks, as the pool keeps them and its contracts see them.

use thiserror::Error;

/// The identity of a task. Tasks are numbered from 1 in the order in which they are made; 0 is no task.
pub type TaskId = u32;

/// The most tasks that are made in a pool (limit 4).
pub const TASK_LIMIT: usize = 65_535;

/// How a task came about.
#[derive(Clone, Copy, Debug, PartialEq, Eq)]
pub enum TaskKind {
    /// The task of the program's main function.
    Initial,
    /// The task of a member of a team.
    Implicit,
    /// The task of a task construct, which any member of the team may start once it is ready.
    Explicit,
    /// The task of a task construct whose `if` is 0, which the encountering thread starts next. It is an explicit task
    /// too (OpenMP 5.2, 12.5).
    Undeferred,
}

/// How far a task has come.
#[derive(Clone, Copy, Debug, PartialEq, Eq)]
pub enum Condition {
    /// It was made.
    Made,
    /// It waits in the ready order.
    Ready,
    /// A thread has taken it up.
    Started,
    /// Its code has ended.
    Finished,
}

/// A task of the pool.
#[derive(Clone, Copy, Debug, PartialEq, Eq)]
pub struct Task {
    /// The task that made it, or 0 for the first one.
    pub parent: TaskId,
    /// The region that it belongs to.
    pub region: u32,
    /// How it came about.
    pub kind: TaskKind,
    /// How far it has come.
    pub condition: Condition,
}

/// No further task can be made.
#[derive(Clone, Copy, Debug, PartialEq, Eq, Error)]
#[error("no further task")]
pub struct Full;
