//! What is kept of tasks for chains.

ghost use Rattle.std.specs.Prelude.{◌≡◌, ◌∷◌, [], List, IfOk, OnOk};
ghost use Rattle.std.specs.Ordering.{nat_cmp};
ghost use Rattle.std.specs.BTreeMap.{get};
ghost use Rattle.ompt_calls.specs.declared.event.EventRecord.{EventRecord as EventOf};
ghost use Rattle.trace_check.specs.Before.{is_barrier as is_barrier_of};
ghost use Rattle.tool_tasks.specs.Holding.{CountsAt, HoldsBegun, HoldsEnded, HoldsJoined, HoldsRegionsOf, HoldsTasks, counted_at};

use crate::making::{Making, making_by};
use omp_codes::endpoints::{BEGIN, END};
use omp_codes::sync_kinds::{
    BARRIER_EXPLICIT, BARRIER_IMPLICIT_PARALLEL, BARRIER_IMPLICIT_WORKSHARE,
};
use ompt_calls::{Call, EventRecord};
use std::alloc::{AllocError, Global};
use std::collections::BTreeMap;

/// The initial task, and its region.
const INITIAL_TASK: u32 = 1;

pub(crate) const INITIAL_REGION: u32 = 1;

/// What is kept of tasks for chains.
#[derive(Drop)]
pub(crate) struct ChainTasks {
    /// The regions of tasks.
    pub regions: BTreeMap<u32, u32>,
    /// Those of implicit tasks and of the initial one.
    pub joined: BTreeMap<u32, u32>,
    /// How many waits at barriers tasks have begun and ended.
    pub begun: BTreeMap<u32, u32>,
    pub ended: BTreeMap<u32, u32>,
}

impl ChainTasks {
    /// There is the initial task.
    pub fn new(alloc: Global) -> Result<ChainTasks, AllocError>
        ensures { IfOk result (λ tasks. HoldsTasks tasks []) }
    {
        let mut regions = BTreeMap::new(alloc);
        regions.insert(INITIAL_TASK, INITIAL_REGION)?;
        let mut joined = BTreeMap::new(alloc);
        joined.insert(INITIAL_TASK, INITIAL_REGION)?;
        Ok(ChainTasks {
            regions,
            joined,
            begun: BTreeMap::new(alloc),
            ended: BTreeMap::new(alloc),
        })
    }

    /// The region of a task.
    pub fn region(&self, task: u32) -> Option<u32>
        ensures { result ≡ get nat_cmp self.now.regions task }
    {
        self.regions.get(&task).copied()
    }

    /// The region of an implicit task or of the initial one.
    pub fn joined(&self, task: u32) -> Option<u32>
        ensures { result ≡ get nat_cmp self.now.joined task }
    {
        self.joined.get(&task).copied()
    }

    /// How many waits at barriers a task has begun.
    pub fn begun(&self, task: u32) -> u32
        ensures { result ≡ counted_at self.now.begun task }
    {
        count_at(&self.begun, task)
    }

    /// How many it has ended.
    pub fn ended(&self, task: u32) -> u32
        ensures { result ≡ counted_at self.now.ended task }
    {
        count_at(&self.ended, task)
    }

    /// Learns of the next event.
    pub fn learn(&mut self, event: &EventRecord) -> Result<(), AllocError>
        ensures { OnOk result ((past : List EventOf) → HoldsTasks self.old past →
            HoldsTasks self.new (event.now ∷ past)) }
    {
        self.make(event)?;
        self.wait(event)?;
        Ok(())
    }

    /// Learns which task the event makes.
    fn make(&mut self, event: &EventRecord) -> Result<(), AllocError>
        ensures begun { self.new.begun ≡ self.old.begun }
        ensures ended { self.new.ended ≡ self.old.ended }
        ensures regions { OnOk result ((past : List EventOf) → HoldsRegionsOf self.old.regions past →
            HoldsRegionsOf self.new.regions (event.now ∷ past)) }
        ensures joined { OnOk result ((past : List EventOf) → HoldsJoined self.old.joined past →
            HoldsJoined self.new.joined (event.now ∷ past)) }
    {
        match making_by(&event.call) {
            Making::Implicit(task, region, _) => {
                self.regions.insert(task, region)?;
                self.joined.insert(task, region)?;
            }
            Making::Explicit(task, creator, _) => {
                if let Some(region) = self.region(creator) {
                    self.regions.insert(task, region)?;
                }
            }
            Making::Region(_, _) | Making::Nothing => {}
        }
        Ok(())
    }

    /// Learns which wait at a barrier the event begins or ends.
    fn wait(&mut self, event: &EventRecord) -> Result<(), AllocError>
        ensures regions { self.new.regions ≡ self.old.regions }
        ensures joined { self.new.joined ≡ self.old.joined }
        ensures begun { OnOk result ((past : List EventOf) → HoldsBegun self.old.begun past →
            HoldsBegun self.new.begun (event.now ∷ past)) }
        ensures ended { OnOk result ((past : List EventOf) → HoldsEnded self.old.ended past →
            HoldsEnded self.new.ended (event.now ∷ past)) }
    {
        let Call::SyncRegionWait {
            kind,
            endpoint,
            task,
            ..
        } = &event.call
        else {
            return Ok(());
        };
        if !is_barrier(*kind) {
            return Ok(());
        }
        match *endpoint {
            BEGIN => count_one(&mut self.begun, task.identity),
            END => count_one(&mut self.ended, task.identity),
            _ => Ok(()),
        }
    }
}

/// How often a task was counted.
fn count_at(counts: &BTreeMap<u32, u32>, task: u32) -> u32
    ensures { result ≡ counted_at counts.now task }
{
    counts.get(&task).copied().unwrap_or(0)
}

/// Counts a task once more.
fn count_one(counts: &mut BTreeMap<u32, u32>, task: u32) -> Result<(), AllocError>
    ensures { OnOk result (CountsAt counts.old counts.new task) }
{
    let count = count_at(counts, task).checked_add(1).ok_or(AllocError)?;
    counts.insert(task, count)?;
    Ok(())
}

/// Whether a wait of this kind is at a barrier.
pub(crate) fn is_barrier(kind: u32) -> bool
    ensures { result ≡ is_barrier_of kind }
{
    kind == BARRIER_EXPLICIT
        || kind == BARRIER_IMPLICIT_WORKSHARE
        || kind == BARRIER_IMPLICIT_PARALLEL
}
