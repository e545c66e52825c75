//! The run by threads: each thread number has a thread of its own, where it can be started, and callbacks of different threads may overlap.

ghost use Rattle.std.specs.Prelude.{◌≡◌, ◌≢◌, ◌≤◌, Some, IfOk, false, length};
ghost use Rattle.thread_run.specs.Drivers.{CanDrive, HasServed, HaveComeBack};
ghost use Rattle.team_run.specs.Program.{IsRanOf};

use crate::team::{Slot, Stays, drive_here, finish_all, start_all};
use c_check::Program;
use omp_machine::Limits;
use omp_model::Cause;
use std::alloc::{AllocError, Global};
use std::marker::Brand;
use std::num::NonZeroUsize;
use std::sync::Wait;
use std::sync::atomic::AtomicBool;
use std::thread::Threads;
use std::{array, thread};
use step_book::{Blank, BookName, Closed, Pass, SharedBook};
use team_run::{Memory, Ran, finalize_first, initialize_first};
use tool_api::ToolPart;

/// Runs the program with each thread number on a thread of its own, or driven by the caller where that can't be started. What the parts are
/// called for, and what no clause says, stands at [`Ran`].
///
/// A part is called on its thread, and no lock is held meanwhile. Part 0 is finished when all threads have come back. No clause says that
/// the run ends, or that callbacks overlap.
pub fn run_threads<R: Threads + Wait + Sync, P: ToolPart>(
    rt: &R,
    alloc: Global,
    program: Program,
    limits: Limits,
    mut parts: Vec<P>,
) -> Result<Ran<P>, Memory>
    requires { length parts.items ≡ limits.threads }
    ensures ran { IfOk result (IsRanOf P.stands_for P.same false program limits.threads limits.steps parts.items) }
{
    let start = initialize_first(&mut parts);
    let blank = Blank::new(alloc, program, start.mask, limits)?;
    let (closed, mut parts) = run_team::<R, Brand, P>(rt, alloc, blank, parts)?;
    let cause = known_cause(closed.cause);
    if cause == Cause::Memory && closed.history.as_slice().is_empty() {
        return Err(AllocError);
    }
    finalize_first(start, &mut parts);
    let Closed { history, text, .. } = closed;
    Ok(Ran {
        cause,
        mask: start.mask,
        history,
        text,
        parts,
    })
}

/// Why a run ended whose history ended so. A history that hasn't ended is left where there was no memory.
fn known_cause(cause: Option<Cause>) -> Cause
    ensures { result ≢ Cause.Memory → cause ≡ Some result }
{
    match cause {
        Some(cause) => cause,
        None => Cause::Memory,
    }
}

/// Runs the drivers of all threads over the book of this name until the run is over. It answers what the book has come to, and the parts.
fn run_team<R: Threads + Wait + Sync, K: BookName, P: ToolPart>(
    rt: &R,
    alloc: Global,
    blank: Blank,
    parts: Vec<P>,
) -> Result<(Closed, Vec<P>), Memory>
    requires table { blank.table ≡ K.table }
    requires run { blank.run ≡ K.run }
    requires some { 1 ≤ K.run.threads }
    requires few { K.run.threads ≤ 16 }
    requires parts { length parts.items ≡ K.run.threads }
    ensures { IfOk result (λ team. HasServed P.stands_for P.same K.run team.0 parts.items team.1.items) }
{
    let (book, passes) = SharedBook::<K>::start(alloc, blank, processors(rt))?;
    let slots = Vec::with_capacity(alloc, passes.len())?;
    let passes_back = Vec::with_capacity(alloc, passes.len())?;
    let parts_back = Vec::with_capacity(alloc, passes.len())?;
    let (passes, parts) = run_drivers(rt, &book, passes, parts, slots, passes_back, parts_back);
    Ok((book.close(passes), parts))
}

/// How many processors the threads may run on, or one where that isn't known.
fn processors<R: Threads>(rt: &R) -> usize {
    thread::available_parallelism(rt).map_or(1, NonZeroUsize::get)
}

/// Runs the drivers of these passes and parts, each on a thread of its own, and hands them back in order.
fn run_drivers<R: Threads + Wait + Sync, K: BookName, P: ToolPart>(
    rt: &R,
    book: &SharedBook<K>,
    passes: Vec<Pass<K>>,
    parts: Vec<P>,
    slots: Vec<Slot<K, P>>,
    passes_back: Vec<Pass<K>>,
    parts_back: Vec<P>,
) -> (Vec<Pass<K>>, Vec<P>)
    requires { CanDrive passes.items parts.items slots passes_back parts_back }
    ensures { HaveComeBack P.stands_for P.same K.run passes.items parts.items result.0.items result.1.items }
{
    // No start of a thread was refused yet.
    let stays: Stays = array::from_fn(|_| AtomicBool::new(false));
    let stays = &stays;
    thread::scope(
        thread::scope_env(),
        rt,
        move |scope| -> (Vec<Pass<K>>, Vec<P>)
            requires { CanDrive passes.items parts.items slots passes_back parts_back }
            ensures { HaveComeBack P.stands_for P.same K.run passes.items parts.items result.0.items result.1.items }
        {
            let mut slots = start_all(scope, rt, book, stays, passes, parts, slots);
            drive_here(rt, book, &mut slots);
            finish_all(rt, slots, passes_back, parts_back)
        },
    )
}
