//! All that is kept of what a trace has open.

ghost use Rattle.std.specs.Prelude.{◌≡◌, List, [], min};
ghost use Rattle.std.specs.BTreeMap.{IsOrdered, values};
ghost use Rattle.std.specs.List.{list_all};
ghost use Rattle.std.specs.Ordering.{nat_cmp};
ghost use Rattle.ompt_calls.specs.declared.event.EventRecord.{EventRecord};
ghost use Rattle.trace_check.specs.Checking.{AreOrdered, IsKnown, Unbroken, kept_by};
ghost use Rattle.trace_check.specs.declared.things.Thread.{Thread as ThreadOf};
ghost use Rattle.trace_check.specs.Nested.{are_regions_over, are_tasks_complete, has_begun, is_closed};

use crate::things::{Created, Member, Opened, Region, Thread};
use std::alloc::Global;
use std::collections::BTreeMap;

/// All that is kept of what a trace has open.
#[derive(Drop)]
pub(crate) struct Kept {
    /// The threads that began.
    pub threads: BTreeMap<u8, Thread>,
    /// The brackets that are open on them, by thread and place.
    pub brackets: BTreeMap<u64, Opened>,
    /// The regions that have no end yet.
    pub regions: BTreeMap<u32, Region>,
    /// The implicit tasks that these have had, by region and index.
    pub members: BTreeMap<u64, Member>,
    /// The created tasks that aren't complete.
    pub created: BTreeMap<u32, Created>,
    /// The wait identifiers that are held, with the threads that hold them.
    pub held: BTreeMap<u32, u8>,
    /// The greatest region and the greatest task that were made.
    pub greatest_region: u32,
    pub greatest_task: u32,
    /// How many tasks that the initial task created aren't complete.
    pub children: u64,
}

impl Kept {
    /// Nothing is open yet.
    pub fn new(alloc: Global) -> Kept
        ensures known { IsKnown result [] }
        ensures empty { kept_by result ≡ 0 }
    {
        Kept {
            threads: BTreeMap::new(alloc),
            brackets: BTreeMap::new(alloc),
            regions: BTreeMap::new(alloc),
            members: BTreeMap::new(alloc),
            created: BTreeMap::new(alloc),
            held: BTreeMap::new(alloc),
            greatest_region: 1,
            greatest_task: 1,
            children: 0,
        }
    }

    /// Forgets all.
    pub fn clear(&mut self)
        ensures empty { kept_by self.new ≡ 0 }
    {
        self.threads.clear();
        self.brackets.clear();
        self.regions.clear();
        self.members.clear();
        self.created.clear();
        self.held.clear();
    }

    /// Whether nothing is open: thread 0 has begun, each thread that began has ended, each region has its end, and each created task is
    /// complete.
    #[tactic(auto, using(crate::proofs::Closed::ended_is))]
    pub fn is_closed(&self) -> bool
        ensures { (past : List EventRecord) → IsKnown self.now past → Unbroken past → result ≡ is_closed past }
    {
        self.has_begun() && self.have_ended() && self.has_no_region() && self.has_no_task()
    }

    /// Whether thread 0 has begun.
    fn has_begun(&self) -> bool
        ensures { (past : List EventRecord) → IsKnown self.now past → Unbroken past → result ≡ has_begun past }
    {
        self.threads.contains_key(&0)
    }

    /// Whether each thread that began has ended.
    fn have_ended(&self) -> bool
        ensures each { result ≡ list_all (λ (thread : ThreadOf). thread.ended) (values self.now.threads) }
        ensures ordered { IsOrdered nat_cmp self.now.threads }
    {
        self.threads.values().all(|thread| thread.ended)
    }

    /// Whether each region has its end.
    fn has_no_region(&self) -> bool
        ensures { (past : List EventRecord) → IsKnown self.now past → Unbroken past → result ≡ are_regions_over past }
    {
        self.regions.is_empty()
    }

    /// Whether each created task is complete.
    fn has_no_task(&self) -> bool
        ensures { (past : List EventRecord) → IsKnown self.now past → Unbroken past → result ≡ are_tasks_complete past }
    {
        self.created.is_empty()
    }

    /// The sum of the lengths, or the greatest number where that is less.
    pub fn length(&self) -> usize
        ensures sum { result ≡ min (kept_by self.now) 18446744073709551615 }
        ensures ordered { AreOrdered self.now }
    {
        self.threads
            .len()
            .saturating_add(self.brackets.len())
            .saturating_add(self.regions.len())
            .saturating_add(self.members.len())
            .saturating_add(self.created.len())
            .saturating_add(self.held.len())
    }
}
