//! A callback with its arguments.

ghost use Rattle.std.specs.Prelude.{◌≡◌};
ghost use Rattle.ompt_calls.specs.Arguments.{arguments_of, name_of};
ghost use Rattle.ompt_calls.specs.Number.{number_of};

use crate::argument::{Argument, Arguments};
use omp_codes::callbacks;

/// A data word of a tool: `ompt_data_t` (OpenMP 5.2, 19.4.4.4), named by a number in place of an address.
#[derive(Clone, Copy, PartialEq, Eq)]
pub struct Word {
    /// Which word: t + 1 for thread t; the number of the region or the task; 0 for NULL.
    pub identity: u32,
    /// What was last stored, or 0.
    pub value: u64,
}

/// The frame of a task: `ompt_frame_t` (OpenMP 5.2, 19.4.4), with numbers in place of addresses.
#[derive(Clone, Copy, PartialEq, Eq)]
pub struct Frame {
    /// The first procedure frame of the task's code: its `exit_frame`; 0 where there is none.
    pub exit: u32,
    /// The procedure frame from which the task last entered the runtime: its `enter_frame`; 0 where there is none.
    pub enter: u32,
}

/// A callback, with its arguments in the order of the specification (OpenMP 5.2, 19.5.2).
#[derive(Clone, Copy)]
pub enum Call {
    /// `ompt_callback_thread_begin`: kind 1 is the initial thread, 2 a worker.
    ThreadBegin {
        kind: u32,
        thread: Word,
    },
    /// `ompt_callback_thread_end`.
    ThreadEnd {
        thread: Word,
    },
    /// `ompt_callback_parallel_begin` (19.5.2.3): the task is the encountering one, and the frame is its own.
    ParallelBegin {
        task: Word,
        frame: Frame,
        region: Word,
        requested: u32,
        flags: u32,
        codeptr: u64,
    },
    /// `ompt_callback_parallel_end` (19.5.2.4): the task is the encountering one.
    ParallelEnd {
        region: Word,
        task: Word,
        flags: u32,
        codeptr: u64,
    },
    /// `ompt_callback_task_create` (19.5.2.7): the task is the encountering one, the frame is its own, and `fresh` is the new task.
    TaskCreate {
        task: Word,
        frame: Frame,
        fresh: Word,
        flags: u32,
        has_dependences: u32,
        codeptr: u64,
    },
    /// `ompt_callback_task_schedule` (19.5.2.10): status 1 says that the prior task has ended, 7 that the thread goes from it to another one.
    TaskSchedule {
        prior: Word,
        status: u32,
        next: Word,
    },
    /// `ompt_callback_implicit_task`: endpoint 1 is the begin, 2 the end.
    ImplicitTask {
        endpoint: u32,
        region: Word,
        task: Word,
        actual: u32,
        index: u32,
        flags: u32,
    },
    /// `ompt_callback_sync_region_wait` (19.5.2.13): the wait in a synchronization region, with its arguments.
    SyncRegionWait {
        kind: u32,
        endpoint: u32,
        region: Word,
        task: Word,
        codeptr: u64,
    },
    /// `ompt_callback_mutex_released` (19.5.2.15).
    MutexReleased {
        kind: u32,
        wait_id: u32,
        codeptr: u64,
    },
    /// `ompt_callback_work` (19.5.2.5): endpoint 1 is the begin, 2 the end.
    Work {
        kind: u32,
        endpoint: u32,
        region: Word,
        task: Word,
        count: u64,
        codeptr: u64,
    },
    /// `ompt_callback_masked` (19.5.2.12): endpoint 1 is the begin, 2 the end.
    Masked {
        endpoint: u32,
        region: Word,
        task: Word,
        codeptr: u64,
    },
    /// `ompt_callback_sync_region` (19.5.2.13): endpoint 1 is the begin, 2 the end.
    SyncRegion {
        kind: u32,
        endpoint: u32,
        region: Word,
        task: Word,
        codeptr: u64,
    },
    /// `ompt_callback_lock_init` (19.5.2.14). `variant` is its argument `impl`.
    LockInit {
        kind: u32,
        hint: u32,
        variant: u32,
        wait_id: u32,
        codeptr: u64,
    },
    /// `ompt_callback_lock_destroy` (19.5.2.15).
    LockDestroy {
        kind: u32,
        wait_id: u32,
        codeptr: u64,
    },
    /// `ompt_callback_mutex_acquire` (19.5.2.14). `variant` is its argument `impl`.
    MutexAcquire {
        kind: u32,
        hint: u32,
        variant: u32,
        wait_id: u32,
        codeptr: u64,
    },
    /// `ompt_callback_mutex_acquired` (19.5.2.15).
    MutexAcquired {
        kind: u32,
        wait_id: u32,
        codeptr: u64,
    },
    /// `ompt_callback_dispatch` (19.5.2.6), with two numbers in place of its instance. Kind 3 is a chunk of a loop: its first iteration,
    /// counted from 0, and its length. Kind 2 is a section: its place, and 0.
    Dispatch {
        region: Word,
        task: Word,
        kind: u32,
        start: u64,
        iterations: u64,
    },
}

/// The table of the callbacks: a row has the callback's number, its variant, and its arguments in the order of the specification
/// (OpenMP 5.2, 19.5.2), each with the variant of `Argument` that it is. The macro `$row` makes a `match` of the rows.
#[macro_export]
macro_rules! by_callback {
    ($row:ident, $($given:expr),+) => {
        $row!(
            $($given),+;
            THREAD_BEGIN ThreadBegin { kind: Short, thread: Word }
            THREAD_END ThreadEnd { thread: Word }
            PARALLEL_BEGIN ParallelBegin {
                task: Word, frame: Frame, region: Word, requested: Short, flags: Short, codeptr: Long
            }
            PARALLEL_END ParallelEnd { region: Word, task: Word, flags: Short, codeptr: Long }
            TASK_CREATE TaskCreate {
                task: Word, frame: Frame, fresh: Word, flags: Short, has_dependences: Short, codeptr: Long
            }
            TASK_SCHEDULE TaskSchedule { prior: Word, status: Short, next: Word }
            IMPLICIT_TASK ImplicitTask {
                endpoint: Short, region: Word, task: Word, actual: Short, index: Short, flags: Short
            }
            SYNC_REGION_WAIT SyncRegionWait {
                kind: Short, endpoint: Short, region: Word, task: Word, codeptr: Long
            }
            MUTEX_RELEASED MutexReleased { kind: Short, wait_id: Short, codeptr: Long }
            WORK Work {
                kind: Short, endpoint: Short, region: Word, task: Word, count: Long, codeptr: Long
            }
            MASKED Masked { endpoint: Short, region: Word, task: Word, codeptr: Long }
            SYNC_REGION SyncRegion {
                kind: Short, endpoint: Short, region: Word, task: Word, codeptr: Long
            }
            LOCK_INIT LockInit {
                kind: Short, hint: Short, variant: Short, wait_id: Short, codeptr: Long
            }
            LOCK_DESTROY LockDestroy { kind: Short, wait_id: Short, codeptr: Long }
            MUTEX_ACQUIRE MutexAcquire {
                kind: Short, hint: Short, variant: Short, wait_id: Short, codeptr: Long
            }
            MUTEX_ACQUIRED MutexAcquired { kind: Short, wait_id: Short, codeptr: Long }
            DISPATCH Dispatch {
                region: Word, task: Word, kind: Short, start: Long, iterations: Long
            }
        )
    };
}

/// The number of the callback of each row.
macro_rules! number_by_row {
    ($call:expr; $($number:ident $variant:ident { $($field:ident: $form:ident),+ })+) => {
        match $call {
            $(Call::$variant { .. } => callbacks::$number,)+
        }
    };
}

/// The arguments of each row.
macro_rules! arguments_by_row {
    ($call:expr; $($number:ident $variant:ident { $($field:ident: $form:ident),+ })+) => {
        match $call {
            $(Call::$variant { $($field),+ } => listed!($(Argument::$form($field)),+),)+
        }
    };
}

/// So many arguments.
macro_rules! listed {
    ($a:expr) => {
        Arguments::one($a)
    };
    ($a:expr, $b:expr) => {
        Arguments::two($a, $b)
    };
    ($a:expr, $b:expr, $c:expr) => {
        Arguments::three($a, $b, $c)
    };
    ($a:expr, $b:expr, $c:expr, $d:expr) => {
        Arguments::four($a, $b, $c, $d)
    };
    ($a:expr, $b:expr, $c:expr, $d:expr, $e:expr) => {
        Arguments::five($a, $b, $c, $d, $e)
    };
    ($($item:expr),+) => {
        Arguments::six([$($item),+])
    };
}

impl Call {
    /// The callback's value in `ompt_callbacks_t` (OpenMP 5.2, 19.4.2).
    pub fn number(&self) -> u32
        ensures { result ≡ number_of self.now }
    {
        by_callback!(number_by_row, self)
    }

    /// The name of the callback, as a line has it: that of OpenMP 5.2, 19.4.2, without `ompt_callback_`.
    pub fn name(&self) -> &'static str
        ensures { result.now ≡ name_of self.now }
    {
        callbacks::name(self.number())
    }

    /// The arguments in their order.
    pub fn arguments(&self) -> Arguments
        ensures { result ≡ arguments_of self.now }
    {
        by_callback!(arguments_by_row, *self)
    }
}
