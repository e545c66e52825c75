//! The tool: it hears of parallel regions, of tasks, and of waits at barriers.

use crate::profile::{Barrier, BarrierWait, Profile, Region};
use omp_codes::{callbacks, endpoints, sync_kinds, task_flags, task_statuses};
use ompt_calls::{Call, CodePlace, Reply, Snapshot, WordAt};
use std::sync::{Arc, Mutex, Wait};
use tool_api::{ACTIVE, GuestTool, Memory, Registrar, Response};

/// The guest of one thread. The guests of all threads add to one profile. Nothing is promised of what it has then, so `stands_for` holds
/// of each record.
#[derive(Drop)]
pub(crate) struct Profiler<R> {
    runtime: R,
    profile: Arc<Mutex<Profile>>,
}

impl<R> Profiler<R> {
    /// A guest that adds to this profile. The runtime is there for the lock.
    pub fn new(runtime: R, profile: Arc<Mutex<Profile>>) -> Profiler<R> {
        Profiler { runtime, profile }
    }
}

impl<R: Wait + Copy + Send> GuestTool for Profiler<R> {
    ghost use Rattle.std.specs.Prelude.{⊤};

    ghost stands_for = { λ profiler h. ⊤ };

    fn initialize(&mut self, registrar: &mut Registrar) -> u32 {
        registrar.set(callbacks::PARALLEL_BEGIN);
        registrar.set(callbacks::IMPLICIT_TASK);
        registrar.set(callbacks::TASK_SCHEDULE);
        registrar.set(callbacks::SYNC_REGION_WAIT);
        ACTIVE
    }

    fn callback(&mut self, _seq: u32, thread: u8, call: &Call, _snapshot: &Snapshot) -> Response {
        add(&mut self.profile.lock(&self.runtime), thread, call)?;
        Ok(reply_to(call))
    }

    fn finalize(&mut self) {}
}

/// Adds to the profile what this call of the thread tells.
fn add(profile: &mut Profile, thread: u8, call: &Call) -> Result<(), Memory> {
    match *call {
        // The team's first thread begins, and the region's word has the place of the construct.
        Call::ImplicitTask {
            endpoint: endpoints::BEGIN,
            region,
            actual,
            index: 0,
            flags: task_flags::IMPLICIT,
            ..
        } => profile.add_region(Region {
            number: region.identity,
            line: CodePlace(region.value).line(),
            team: actual,
        }),
        // An explicit task begins, and the prior one hasn't ended.
        Call::TaskSchedule {
            status: task_statuses::SWITCH,
            ..
        } => profile.count_task(thread),
        Call::SyncRegionWait {
            kind,
            endpoint: endpoints::BEGIN,
            codeptr,
            ..
        } => match barrier_of(kind) {
            Some(barrier) => profile.add_wait(BarrierWait {
                thread,
                barrier,
                line: CodePlace(codeptr).line(),
            }),
            None => Ok(()),
        },
        _ => Ok(()),
    }
}

/// Stores the place of a new region's construct in the data word of the region.
fn reply_to(call: &Call) -> Reply {
    match *call {
        Call::ParallelBegin { codeptr, .. } => Reply::store(WordAt::Fresh, codeptr),
        _ => Reply::none(),
    }
}

/// The barrier of this kind of synchronization region. A `taskwait` is none.
fn barrier_of(kind: u32) -> Option<Barrier> {
    match kind {
        sync_kinds::BARRIER_EXPLICIT => Some(Barrier::Explicit),
        sync_kinds::BARRIER_IMPLICIT_WORKSHARE => Some(Barrier::Worksharing),
        sync_kinds::BARRIER_IMPLICIT_PARALLEL => Some(Barrier::Parallel),
        _ => None,
    }
}
