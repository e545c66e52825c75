//! What the two tools gather, and the guests that gather it.

use crate::profile::Profile;
use crate::profiler::Profiler;
use crate::task_profiler::TaskProfiler;
use crate::task_starts::TaskStarts;
use std::alloc::{AllocError, Global};
use std::sync::{Arc, Mutex, Wait};
use tool_api::{GuestOf, PartOf};
use tool_both::{Both, Masks};

/// How many threads there may be.
const MOST_THREADS: u8 = 16;

/// Both tools of one thread, as its guest.
pub(crate) type TwoTools<R> = GuestOf<Both<PartOf<Profiler<R>>, PartOf<TaskProfiler<R>>>>;

/// What the two tools gather: the guests of all threads add to it, and `main` reports it.
#[derive(Drop)]
pub(crate) struct Gathered {
    pub profile: Arc<Mutex<Profile>>,
    pub starts: Arc<Mutex<TaskStarts>>,
}

impl Gathered {
    /// Nothing is gathered yet.
    pub fn new(alloc: Global) -> Result<Gathered, AllocError> {
        Ok(Gathered {
            profile: Arc::new(alloc, Mutex::new(Profile::new(alloc)))?,
            starts: Arc::new(alloc, Mutex::new(TaskStarts::new(alloc)))?,
        })
    }

    /// A guest for each thread that there may be. The tools of thread 0 are asked what they register, and all others go by that.
    pub fn guests<R: Wait + Copy + Send>(
        &self,
        alloc: Global,
        runtime: R,
    ) -> Result<Vec<TwoTools<R>>, AllocError> {
        let mut guests = Vec::new(alloc);
        let mut first = self.profiler(runtime)?;
        let mut second = self.task_profiler(runtime)?;
        let masks = Masks::ask(&mut first, &mut second);
        guests.push(GuestOf(Both::new(first, second, masks)))?;
        for _thread in 1..MOST_THREADS {
            let first = self.profiler(runtime)?;
            let second = self.task_profiler(runtime)?;
            guests.push(GuestOf(Both::new(first, second, masks)))?;
        }
        Ok(guests)
    }

    /// The first tool, for one thread.
    fn profiler<R: Copy>(&self, runtime: R) -> Result<PartOf<Profiler<R>>, AllocError> {
        let profile = Arc::try_clone(&self.profile)?;
        Ok(PartOf(Profiler::new(runtime, profile)))
    }

    /// The second tool, for one thread.
    fn task_profiler<R: Copy>(&self, runtime: R) -> Result<PartOf<TaskProfiler<R>>, AllocError> {
        let starts = Arc::try_clone(&self.starts)?;
        Ok(PartOf(TaskProfiler::new(runtime, starts)))
    }
}
