//! The tasks of a run, and which of the ready ones a thread may start.
//!
//! Contracts see a [`Pool`] as the list of its [`Task`]s by identity, each with its parent, region, kind and condition,
//! and the list of the ready ones in the order in which they became ready. Beside these stands how many more tasks there
//! is room for, and for how many regions there are places.
//!
//! - `specs/Tasks.antt` has the list of tasks and what is counted in it: the unfinished explicit children of a task, and
//!   the unfinished explicit tasks of a region;
//! - `specs/Allowed.antt` has which task descends from which, and the newest one that is allowed: the last of the ready
//!   ones that is of the region and descends from every task that is held. [`descending_is_reachability`] says that the
//!   test for descending, which computes, is what one would say of parents;
//! - `specs/View.antt` has what each call does to the lists.
//!
//! The contracts say that each call does that, and answers what the definitions have: [`Pool::add`] is full exactly where
//! 65,535 tasks were made, and then nothing has changed, and [`Pool::newest_allowed`] answers none exactly where no ready
//! task is allowed. Only [`Pool::new`], [`Pool::reserve`] and [`Pool::ready_list`] take memory, and after want of it
//! nothing has changed. [`Pool::reserve`] makes room for one task, and [`Pool::add`] uses it up.
//!
//! The code keeps no list of ready tasks. Each task is a node with links to the one before it and the one after it, in
//! the ready order and among the ready ones of its region, and with the number of its unfinished explicit children; each
//! region has its first and its last ready task and the number of its unfinished explicit tasks. The type's invariant, in
//! `specs/Links.antt`, says that the links spell the ready order forwards and backwards, and each region's part of it. So
//! no call but [`Pool::newest_allowed`] and [`Pool::ready_list`] has a loop. What calls cost is no clause.
//!
//! Tests of `test_parts` try a small pool and a full one, and long lists of calls beside plain lists.
#![tactic(auto)]

mod chain;
mod laws;
mod node;
mod pool;
mod task;

pub use laws::descending_is_reachability;
pub use pool::{Memory, Pool};
pub use task::{Condition, Full, TASK_LIMIT, Task, TaskId, TaskKind};
