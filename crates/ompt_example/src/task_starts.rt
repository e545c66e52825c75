//! How explicit tasks began, and the report of it.

use std::alloc::{AllocError, Global};
use std::collections::BTreeMap;
use std::fmt;
use std::fmt::{Display, Formatter, Write};

/// How an explicit task began.
#[derive(Clone, Copy)]
pub(crate) struct TaskStart {
    /// The thread on which it began.
    pub thread: u8,
    /// How long it had waited for that since it was created, in positions of the history.
    pub waited: u64,
    /// How many levels of tasks the thread had then. The task's own is one of them.
    pub levels: usize,
}

/// The starts of explicit tasks. Their text is the report.
#[derive(Drop)]
pub(crate) struct TaskStarts {
    /// The starts, by the numbers of the tasks, which count on as tasks are created.
    starts: BTreeMap<u32, TaskStart>,
}

impl TaskStarts {
    /// The starts of a run of which nothing was heard yet.
    pub fn new(alloc: Global) -> TaskStarts {
        TaskStarts {
            starts: BTreeMap::new(alloc),
        }
    }

    /// Adds the start of the task with this number.
    pub fn add(&mut self, task: u32, start: TaskStart) -> Result<(), AllocError> {
        self.starts.insert(task, start)?;
        Ok(())
    }
}

impl Display for TaskStarts {
    fn fmt<W: Write>(&self, f: &mut Formatter<W>) -> fmt::Result {
        for (task, start) in &self.starts {
            writeln!(f, "task {task} {start}")?;
        }
        Ok(())
    }
}

impl Display for TaskStart {
    fn fmt<W: Write>(&self, f: &mut Formatter<W>) -> fmt::Result {
        let TaskStart {
            thread,
            waited,
            levels,
        } = self;
        write!(
            f,
            "began on thread {thread} after {waited} positions, {levels} levels deep"
        )
    }
}
