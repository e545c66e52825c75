//! Events in words that are easy to write: a word, the place, and numbers.
//!
//! | Written | Event |
//! |---|---|
//! | `parallel@3:1 2` | a region is forked, and so many threads are asked for |
//! | `end_parallel@3:1` | it is over |
//! | `task@3:1` `undeferred@3:1` | a task is created |
//! | `loop@3:1 0 10 1 static` | the work of a loop begins: the first value, how many iterations, the step, the schedule |
//! | `sections@3:1 2` `single@3:1` | that of sections, and how many they are; that of a `single` |
//! | `end_loop@3:1 10` | the work ends. So do `end_sections`, `end_single` and `end_other` |
//! | `masked@3:1` `end_masked@3:1` | the statement of a `masked` begins and ends |
//! | `barrier@3:1 begin` | the first event of a barrier. `wait`, `waited` and `end` follow |
//! | `taskwait@3:1 begin` | the same of a taskwait, of the barrier of a construct as `work_barrier`, of a region as `region_barrier` |
//! | `ask@3:1 lock 65536` | a lock is asked for. `test` is a lock that is tested, `critical 1` a critical with its number |
//! | `ask@3:1 test 65536 cell 3` | the value of the test goes into a cell; with `return` the function returns it |
//! | `own@3:1 lock 65536` | it is owned |
//! | `give@3:1 lock 65536` | it is given back |
//! | `init@3:1 65536` `destroy@3:1 65536` | a lock is initialised, destroyed |

use c_model::{LINE_UNIT, MutexKind, Point, Schedule, SyncKind, SyncStage, Target, Work, WorkKind};
use std::alloc::AllocError;

/// Writes an event.
pub(crate) fn write_point(told: &mut String, point: Point) -> Result<(), AllocError> {
    match point {
        Point::ParallelBegin { codeptr, requested } => {
            write_head(told, "parallel", codeptr)?;
            write!(told, " {requested}")
        }
        Point::ParallelEnd { codeptr } => write_head(told, "end_parallel", codeptr),
        Point::TaskCreate {
            codeptr,
            undeferred: true,
        } => write_head(told, "undeferred", codeptr),
        Point::TaskCreate { codeptr, .. } => write_head(told, "task", codeptr),
        Point::WorkBegin { codeptr, work } => write_work(told, codeptr, work),
        Point::WorkEnd {
            codeptr,
            kind,
            count,
        } => {
            write_head(told, end_word(kind), codeptr)?;
            write!(told, " {count}")
        }
        Point::MaskedBegin { codeptr } => write_head(told, "masked", codeptr),
        Point::MaskedEnd { codeptr } => write_head(told, "end_masked", codeptr),
        Point::Sync {
            codeptr,
            kind,
            stage,
        } => {
            write_head(told, sync_word(kind), codeptr)?;
            told.push_str(stage_word(stage))
        }
        _ => write_lock(told, point),
    }
}

/// Writes an event of a lock or critical.
fn write_lock(told: &mut String, point: Point) -> Result<(), AllocError> {
    match point {
        Point::MutexAcquire {
            codeptr,
            wait_id,
            kind,
            to,
        } => {
            write_head(told, "ask", codeptr)?;
            write_mutex(told, kind, wait_id)?;
            write_target(told, to)
        }
        Point::MutexAcquired {
            codeptr,
            wait_id,
            kind,
        } => {
            write_head(told, "own", codeptr)?;
            write_mutex(told, kind, wait_id)
        }
        Point::MutexReleased {
            codeptr,
            wait_id,
            kind,
        } => {
            write_head(told, "give", codeptr)?;
            write_mutex(told, kind, wait_id)
        }
        Point::LockInit { codeptr, wait_id } => {
            write_head(told, "init", codeptr)?;
            write!(told, " {wait_id}")
        }
        Point::LockDestroy { codeptr, wait_id } => {
            write_head(told, "destroy", codeptr)?;
            write!(told, " {wait_id}")
        }
        _ => Ok(()),
    }
}

/// Writes the word of an event, and its place.
fn write_head(told: &mut String, word: &str, codeptr: u64) -> Result<(), AllocError> {
    let line = codeptr / LINE_UNIT;
    let column = codeptr % LINE_UNIT;
    write!(told, "{word}@{line}:{column}")
}

/// Writes the begin of shared work.
fn write_work(told: &mut String, codeptr: u64, work: Work) -> Result<(), AllocError> {
    match work {
        Work::Loop {
            start,
            count,
            step,
            schedule,
        } => {
            write_head(told, "loop", codeptr)?;
            write!(told, " {start} {count} {step}")?;
            write_schedule(told, schedule)
        }
        Work::Sections(count) => {
            write_head(told, "sections", codeptr)?;
            write!(told, " {count}")
        }
        Work::Single => write_head(told, "single", codeptr),
    }
}

/// Writes a schedule, with the size of its chunks.
fn write_schedule(told: &mut String, schedule: Schedule) -> Result<(), AllocError> {
    match schedule {
        Schedule::Static(0) => told.push_str(" static"),
        Schedule::Static(size) => write!(told, " static {size}"),
        Schedule::Dynamic(size) => write!(told, " dynamic {size}"),
        Schedule::Guided(size) => write!(told, " guided {size}"),
    }
}

/// The word for the end of shared work.
fn end_word(kind: WorkKind) -> &'static str {
    match kind {
        WorkKind::Loop => "end_loop",
        WorkKind::Sections => "end_sections",
        WorkKind::SingleExecutor => "end_single",
        WorkKind::SingleOther => "end_other",
    }
}

/// The word for a barrier or taskwait.
fn sync_word(kind: SyncKind) -> &'static str {
    match kind {
        SyncKind::Barrier => "barrier",
        SyncKind::Taskwait => "taskwait",
        SyncKind::Worksharing => "work_barrier",
        SyncKind::Parallel => "region_barrier",
    }
}

/// The word for an event of a barrier or taskwait.
fn stage_word(stage: SyncStage) -> &'static str {
    match stage {
        SyncStage::RegionBegin => " begin",
        SyncStage::WaitBegin => " wait",
        SyncStage::WaitEnd => " waited",
        SyncStage::RegionEnd => " end",
    }
}

/// Writes what is taken, and its number.
fn write_mutex(told: &mut String, kind: MutexKind, wait_id: u32) -> Result<(), AllocError> {
    let word = match kind {
        MutexKind::Lock => "lock",
        MutexKind::TestLock => "test",
        MutexKind::Critical => "critical",
    };
    write!(told, " {word} {wait_id}")
}

/// Writes where the value of a test goes, if anybody takes it.
fn write_target(told: &mut String, to: Target) -> Result<(), AllocError> {
    match to {
        Target::Nowhere => Ok(()),
        Target::Cell(cell) => write!(told, " cell {cell}"),
        Target::Return => told.push_str(" return"),
    }
}
