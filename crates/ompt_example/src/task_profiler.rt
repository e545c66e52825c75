//! The second tool: it hears when explicit tasks are created and when they begin.

use crate::task_starts::{TaskStart, TaskStarts};
use omp_codes::{callbacks, task_statuses};
use ompt_calls::{Call, Reply, Snapshot, Word, WordAt};
use std::sync::{Arc, Mutex, Wait};
use tool_api::{ACTIVE, GuestTool, Registrar, Response};

/// The guest of one thread. The guests of all threads add to the same starts. Nothing is promised of what these have then, so
/// `stands_for` holds of each record.
#[derive(Drop)]
pub(crate) struct TaskProfiler<R> {
    runtime: R,
    starts: Arc<Mutex<TaskStarts>>,
}

impl<R> TaskProfiler<R> {
    /// A guest that adds to these starts. The runtime is there for the lock.
    pub fn new(runtime: R, starts: Arc<Mutex<TaskStarts>>) -> TaskProfiler<R> {
        TaskProfiler { runtime, starts }
    }
}

impl<R: Wait + Copy + Send> GuestTool for TaskProfiler<R> {
    ghost use Rattle.std.specs.Prelude.{⊤};

    ghost stands_for = { λ profiler h. ⊤ };

    fn initialize(&mut self, registrar: &mut Registrar) -> u32 {
        registrar.set(callbacks::TASK_CREATE);
        registrar.set(callbacks::TASK_SCHEDULE);
        ACTIVE
    }

    fn callback(&mut self, seq: u32, thread: u8, call: &Call, snapshot: &Snapshot) -> Response {
        if let Some(next) = begun_task(call) {
            let start = TaskStart {
                thread,
                waited: u64::from(seq).saturating_sub(next.value),
                levels: snapshot.tasks.len(),
            };
            self.starts.lock(&self.runtime).add(next.identity, start)?;
        }
        Ok(reply_to(seq, call))
    }

    fn finalize(&mut self) {}
}

/// The word of the explicit task that begins by this call, if one does.
fn begun_task(call: &Call) -> Option<Word> {
    match *call {
        Call::TaskSchedule {
            status: task_statuses::SWITCH,
            next,
            ..
        } => Some(next),
        _ => None,
    }
}

/// Stores the position at which a task is created in the data word of that task.
fn reply_to(seq: u32, call: &Call) -> Reply {
    match call {
        Call::TaskCreate { .. } => Reply::store(WordAt::Fresh, u64::from(seq)),
        _ => Reply::none(),
    }
}
