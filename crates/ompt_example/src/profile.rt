//! What was heard of a run, and its report.

ghost use Rattle.std.specs.Prelude.{◌≡◌, ◌++◌, ◌∷◌, [], OnOk, OnErr};

use std::alloc::{AllocError, Global};
use std::collections::BTreeMap;
use std::fmt;
use std::fmt::{Display, Formatter, Write};

/// A parallel region.
#[derive(Clone, Copy)]
pub(crate) struct Region {
    /// Its number: main has region 1, and the others count on as they begin.
    pub number: u32,
    /// The line of its directive.
    pub line: u64,
    /// How many threads its team has.
    pub team: u32,
}

/// A barrier, by what it belongs to.
#[derive(Clone, Copy)]
pub(crate) enum Barrier {
    /// A `barrier` directive.
    Explicit,
    /// The end of a worksharing construct.
    Worksharing,
    /// The end of a parallel region.
    Parallel,
}

/// A wait at a barrier.
#[derive(Clone, Copy)]
pub(crate) struct BarrierWait {
    /// The thread that waited.
    pub thread: u8,
    /// The barrier at which it waited.
    pub barrier: Barrier,
    /// The line of the directive.
    pub line: u64,
}

/// What was heard of a run. Its text is the report.
#[derive(Drop)]
pub(crate) struct Profile {
    /// The regions, in the order in which their teams began.
    pub regions: Vec<Region>,
    /// How many explicit tasks each thread began. A thread that began none is left out.
    pub tasks: BTreeMap<u8, u64>,
    /// The waits, in the order in which they began.
    pub waits: Vec<BarrierWait>,
}

impl Profile {
    /// The profile of a run of which nothing was heard yet.
    pub fn new(alloc: Global) -> Profile
        ensures regions { result.regions.items ≡ [] }
        ensures waits { result.waits.items ≡ [] }
    {
        Profile {
            regions: Vec::new(alloc),
            tasks: BTreeMap::new(alloc),
            waits: Vec::new(alloc),
        }
    }

    /// Adds a region whose team has begun.
    pub fn add_region(&mut self, region: Region) -> Result<(), AllocError>
        ensures ok { OnOk result (self.new.regions.items ≡ self.old.regions.items ++ region ∷ []) }
        ensures err { OnErr result (self.new.regions.items ≡ self.old.regions.items) }
        ensures waits { self.new.waits ≡ self.old.waits }
    {
        self.regions.push(region)?;
        Ok(())
    }

    /// Counts an explicit task that this thread has begun.
    pub fn count_task(&mut self, thread: u8) -> Result<(), AllocError>
        ensures regions { self.new.regions ≡ self.old.regions }
        ensures waits { self.new.waits ≡ self.old.waits }
    {
        let tasks = self.tasks.entry(thread)?.or_insert(0);
        *tasks = tasks.saturating_add(1);
        Ok(())
    }

    /// Adds a wait that has begun.
    pub fn add_wait(&mut self, wait: BarrierWait) -> Result<(), AllocError>
        ensures ok { OnOk result (self.new.waits.items ≡ self.old.waits.items ++ wait ∷ []) }
        ensures err { OnErr result (self.new.waits.items ≡ self.old.waits.items) }
        ensures regions { self.new.regions ≡ self.old.regions }
    {
        self.waits.push(wait)?;
        Ok(())
    }
}

impl Display for Profile {
    fn fmt<W: Write>(&self, f: &mut Formatter<W>) -> fmt::Result {
        for region in &self.regions {
            writeln!(f, "{region}")?;
        }
        for (thread, tasks) in &self.tasks {
            writeln!(f, "tasks of thread {thread}: {tasks}")?;
        }
        for wait in &self.waits {
            writeln!(f, "{wait}")?;
        }
        Ok(())
    }
}

impl Display for Region {
    fn fmt<W: Write>(&self, f: &mut Formatter<W>) -> fmt::Result {
        let Region { number, line, team } = self;
        write!(f, "region {number} at line {line}: team of {team}")
    }
}

impl Display for BarrierWait {
    fn fmt<W: Write>(&self, f: &mut Formatter<W>) -> fmt::Result {
        let BarrierWait { thread, line, .. } = self;
        let barrier = match self.barrier {
            Barrier::Explicit => "barrier",
            Barrier::Worksharing => "end of the worksharing construct",
            Barrier::Parallel => "end of the parallel region",
        };
        write!(f, "thread {thread} waited at the {barrier} of line {line}")
    }
}
