//! What changes of tasks.

ghost use Rattle.std.specs.Prelude.{◌≡◌, ◌==◌, ◌<◌, IsOk, length, slice_get};
ghost use Rattle.c_steps.specs.Beginning.{IsCreation};
ghost use Rattle.task_pool.specs.Tasks.{MayBeParent};
ghost use Rattle.task_pool.specs.View.{answer_to_add};
ghost use Rattle.omp_model.specs.State.{task_at};
ghost use Rattle.omp_model.specs.Changes as changes;
ghost use Rattle.omp_model.specs.EventEffects.{kind_of_task, member_code};
ghost use Rattle.task_pool.specs.declared.task.TaskKind.TheVariants as kind;
ghost use Rattle.omp_board.specs.Answering.{moment_at};
ghost use Rattle.omp_board.specs.Tasks.{HasCells, created_by};

use crate::board::Board;
use task_pool::{Condition, TASK_LIMIT, TaskKind};

impl Board {
    /// Whether no further task can be made.
    pub fn is_full(&self) -> bool
        ensures { result ≡ (length self.now.world.pool.tasks == TASK_LIMIT) }
    {
        self.pool.made_count() == TASK_LIMIT
    }

    /// The explicit task is made whose construct stands next in this task's code.
    pub(super) fn add_explicit(&mut self, creator: u32, region: u32, undeferred: bool)
        requires room { 0 < self.old.room.tasks }
        requires place { region < length self.old.world.regions }
        requires parent { MayBeParent self.old.world.pool.tasks creator }
        requires few { IsOk (answer_to_add self.old.world.pool.tasks) }
        requires created { IsCreation (slice_get (task_at self.old.world creator).code.todo 0) }
        requires cells { HasCells self.old.program (moment_at self.old.world creator) }
        ensures { self.new ≡ (let created = created_by self.old.program (moment_at self.old.world creator) in
            record self.old {
              world = record (changes.task_made self.old.world creator region (kind_of_task undeferred) created.task)
                  { store = created.store };
              room = record self.old.room { tasks = 0 };
            }) }
    {
        let kind = if undeferred {
            TaskKind::Undeferred
        } else {
            TaskKind::Explicit
        };
        let _ = self.pool.add(creator, region, kind);
        self.tasks.add_explicit(creator);
    }

    /// A task that hasn't finished starts.
    pub(super) fn start(&mut self, task: u32)
        ensures { self.new ≡ record self.old { world = changes.with_started_task self.old.world task } }
    {
        match self.pool.task(task).condition {
            Condition::Finished => {}
            Condition::Made | Condition::Ready | Condition::Started => self.pool.start(task),
        }
    }

    /// A task that has started finishes.
    pub(super) fn finish(&mut self, task: u32)
        ensures { self.new ≡ record self.old { world = changes.with_finished_task self.old.world task } }
    {
        if let Condition::Started = self.pool.task(task).condition {
            self.pool.finish(task);
        }
    }
}
