//! What a tool can inquire during a call: the state right after the event.

ghost use Rattle.std.specs.Prelude.{◌≡◌};
ghost use Rattle.ompt_calls.specs.Snapshot.{task_info, parallel_info, target_of};

use crate::call::{Frame, Word};
use crate::reply::WordAt;
use crate::sequence::Sequence;

/// A data word that a tool may store into.
#[derive(Clone, Copy, PartialEq, Eq)]
pub enum Target {
    /// The word of the thread with this number.
    Thread(u32),
    /// The word of the parallel region with this identity.
    Parallel(u32),
    /// The word of the task with this identity.
    Task(u32),
}

/// A level of tasks, as `ompt_get_task_info` tells it (OpenMP 5.2, 19.6.1.14).
#[derive(Clone, Copy, PartialEq, Eq)]
pub struct TaskLevel {
    /// Its `ompt_task_flag_t`.
    pub flags: u32,
    /// Its data word.
    pub word: Word,
    /// Its frame.
    pub frame: Frame,
    /// The data word of its parallel region.
    pub region: Word,
    /// The number of the thread in the team of that region; 0 for the initial task.
    pub index: u32,
}

/// A parallel region around a task, as `ompt_get_parallel_info` tells it (OpenMP 5.2, 19.6.1.13).
#[derive(Clone, Copy, PartialEq, Eq)]
pub struct RegionLevel {
    /// Its data word.
    pub word: Word,
    /// How many members its team has.
    pub team: u32,
}

/// The levels of tasks, the current one first: those on a thread's stack, and those beyond.
pub type TaskLevels = Sequence<TaskLevel>;

/// The parallel regions around a thread's current task, the innermost first.
pub type RegionLevels = Sequence<RegionLevel>;

/// What a tool can inquire during a call.
#[derive(Drop)]
pub struct Snapshot {
    /// The thread's data word.
    pub thread: Word,
    /// The thread's `ompt_state_t`.
    pub state: u16,
    /// What the thread waits for (`ompt_wait_id_t`), or 0.
    pub wait_id: u32,
    /// The levels of tasks: those on the thread's stack, and those beyond.
    pub tasks: TaskLevels,
    /// The parallel regions around its current task.
    pub regions: RegionLevels,
    /// The region or the task that the event makes.
    pub fresh: Option<Target>,
}

impl Snapshot {
    /// The thread's state and wait identifier, as `ompt_get_state` answers (OpenMP 5.2, 19.6.1.12).
    pub fn get_state(&self) -> (u16, u32)
        ensures state { result.0 ≡ self.now.state }
        ensures wait_id { result.1 ≡ self.now.wait_id }
    {
        (self.state, self.wait_id)
    }

    /// The thread's data word, as `ompt_get_thread_data` answers (OpenMP 5.2, 19.6.1.5).
    pub fn get_thread_data(&self) -> Word
        ensures { result ≡ self.now.thread }
    {
        self.thread
    }

    /// The task at this level, counted from 0, the current one. `None` stands for the answer 0 of `ompt_get_task_info`:
    /// there is no such level.
    pub fn get_task_info(&self, level: u32) -> Option<TaskLevel>
        ensures { result ≡ task_info self.now level }
    {
        self.tasks.get(level)
    }

    /// The parallel region at this level, counted from 0, the innermost. `None` stands for the answer 0 of
    /// `ompt_get_parallel_info`: there is no such level.
    pub fn get_parallel_info(&self, level: u32) -> Option<RegionLevel>
        ensures { result ≡ parallel_info self.now level }
    {
        self.regions.get(level)
    }

    /// The data word at a place, or `None` where the place isn't there.
    pub fn target(&self, place: WordAt) -> Option<Target>
        ensures { result ≡ target_of self.now place }
    {
        match place {
            WordAt::Thread => Some(Target::Thread(self.thread.identity.saturating_sub(1))),
            WordAt::Parallel(level) => {
                let region = self.regions.get(level)?;
                Some(Target::Parallel(region.word.identity))
            }
            WordAt::Task(level) => {
                let task = self.tasks.get(level)?;
                Some(Target::Task(task.word.identity))
            }
            WordAt::Fresh => self.fresh,
        }
    }
}
