//! A pool whose tasks and ready ones are plain lists, searched from their ends.

use std::alloc::AllocError;
use task_pool::{Condition, Task, TaskId, TaskKind};

/// What stands where no task was made.
const NONE: Task = Task {
    parent: 0,
    region: 0,
    kind: TaskKind::Implicit,
    condition: Condition::Finished,
};

/// The tasks and the ready ones.
#[derive(Drop)]
pub(crate) struct PlainPool {
    pub tasks: Vec<Task>,
    pub ready: Vec<TaskId>,
}

impl PlainPool {
    /// A task of this parent is made.
    pub fn add(&mut self, parent: TaskId, region: u32, kind: TaskKind) -> Result<(), AllocError> {
        self.tasks.push(Task {
            parent,
            region,
            kind,
            condition: Condition::Made,
        })?;
        Ok(())
    }

    pub fn task(&self, task: TaskId) -> Task {
        if task == 0 {
            return NONE;
        }
        match self.tasks.get(task as usize - 1) {
            Some(task) => *task,
            None => NONE,
        }
    }

    pub fn set_condition(&mut self, task: TaskId, condition: Condition) {
        if task == 0 {
            return;
        }
        if let Some(task) = self.tasks.get_mut(task as usize - 1) {
            task.condition = condition;
        }
    }

    pub fn make_ready(&mut self, task: TaskId) -> Result<(), AllocError> {
        self.set_condition(task, Condition::Ready);
        self.ready.push(task)?;
        Ok(())
    }

    pub fn start(&mut self, task: TaskId) {
        self.set_condition(task, Condition::Started);
        self.ready.retain(|other| *other != task);
    }

    fn descends(&self, task: TaskId, from: TaskId) -> bool {
        let mut ancestor = self.task(task).parent;
        for _step in 0..self.tasks.len() {
            if ancestor == from {
                return true;
            }
            if ancestor == 0 {
                return false;
            }
            ancestor = self.task(ancestor).parent;
        }
        false
    }

    fn is_allowed(&self, task: TaskId, region: u32, held: &[TaskId]) -> bool {
        for from in held {
            if !self.descends(task, *from) {
                return false;
            }
        }
        self.task(task).region == region
    }

    pub fn newest_allowed(&self, region: u32, held: &[TaskId]) -> Option<TaskId> {
        let mut newest = None;
        for task in &self.ready {
            if self.is_allowed(*task, region, held) {
                newest = Some(*task);
            }
        }
        newest
    }

    /// The unfinished explicit children of the task.
    pub fn open_children(&self, parent: TaskId) -> u32 {
        let mut children = 0_u32;
        for task in &self.tasks {
            if task.parent == parent && is_open(task) {
                children = children.saturating_add(1);
            }
        }
        children
    }

    /// The unfinished explicit tasks of the region.
    pub fn unfinished(&self, region: u32) -> u32 {
        let mut unfinished = 0_u32;
        for task in &self.tasks {
            if task.region == region && is_open(task) {
                unfinished = unfinished.saturating_add(1);
            }
        }
        unfinished
    }
}

/// Whether it is an explicit task that is unfinished.
fn is_open(task: &Task) -> bool {
    matches!(task.kind, TaskKind::Explicit | TaskKind::Undeferred)
        && !matches!(task.condition, Condition::Finished)
}
