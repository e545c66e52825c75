//! Building the tree event by event.

ghost use Rattle.std.specs.Prelude.{◌≡◌, ◌∷◌, ◌+◌, [], List, IfOk, None, OnOk, is_some, length, slice_get};
ghost use Rattle.ompt_calls.specs.declared.event.EventRecord.{EventRecord as EventOf};
ghost use Rattle.trace_check.specs.Checking.{Unbroken};
ghost use Rattle.trace_check.specs.Rules.{first_broken};
ghost use Rattle.tool_tasks.specs.Charge.{charged_task, one_if};
ghost use Rattle.tool_tasks.specs.Reaching.{span_of};
ghost use Rattle.tool_tasks.specs.Holding.{Builds, CountsOne, HoldsForest, HoldsNodes, HoldsRegions, IsWalk};

use crate::chains::Chains;
use crate::forest::{Forest, TaskNode};
use crate::making::{Making, making_by};
use crate::stacks::Stacks;
use omp_codes::task_flags::INITIAL;
use ompt_calls::EventRecord;
use std::alloc::{AllocError, Global};
use std::collections::BTreeMap;

/// What is known of the events so far.
#[derive(Drop)]
pub(crate) struct ForestBuilder {
    /// The stacks of tasks of the threads.
    pub stacks: Stacks,
    /// The encountering task of each region that has begun.
    pub regions: BTreeMap<u32, u32>,
    /// The tasks that were made, by identity from 1 on. Their links are set at the end.
    pub nodes: Vec<TaskNode>,
    /// How many events were charged.
    pub work: u32,
}

impl ForestBuilder {
    /// Before the first event there is the initial task.
    pub fn new(alloc: Global) -> Result<ForestBuilder, AllocError>
        ensures { IfOk result (λ builder. Builds builder []) }
    {
        let mut nodes = Vec::new(alloc);
        nodes.push(TaskNode::made(1, 0, INITIAL))?;
        Ok(ForestBuilder {
            stacks: Stacks::new(alloc),
            regions: BTreeMap::new(alloc),
            nodes,
            work: 0,
        })
    }

    /// Learns of the next event of a nested trace.
    pub fn learn(&mut self, event: &EventRecord) -> Result<Option<u32>, AllocError>
        ensures charged { IfOk result (λ task. (past : List EventOf) → Builds self.old past →
            task ≡ charged_task past event.now) }
        ensures learned { OnOk result ((past : List EventOf) → Builds self.old past → Unbroken past →
            first_broken past event.now ≡ None →
            Builds self.new (event.now ∷ past)) }
    {
        self.make(event)?;
        let charged = self.stacks.take(event)?;
        self.count(charged)?;
        Ok(charged)
    }

    /// Counts an event that is charged to this task, or to none.
    #[tactic(auto, using(crate::proofs::Grown::counted, crate::proofs::Grown::uncounted))]
    fn count(&mut self, charged: Option<u32>) -> Result<(), AllocError>
        ensures stacks { self.new.stacks ≡ self.old.stacks }
        ensures regions { self.new.regions ≡ self.old.regions }
        ensures work { OnOk result (self.new.work ≡ self.old.work + one_if (is_some charged)) }
        ensures nodes { OnOk result ((past : List EventOf) (event : EventOf) → charged ≡ charged_task past event →
            HoldsNodes self.old.nodes.items (event ∷ past) past →
            HoldsNodes self.new.nodes.items (event ∷ past) (event ∷ past)) }
    {
        let Some(task) = charged else {
            return Ok(());
        };
        self.work = self.work.checked_add(1).ok_or(AllocError)?;
        count_event(&mut self.nodes, task)?;
        Ok(())
    }

    /// Learns which region or task the event makes.
    fn make(&mut self, event: &EventRecord) -> Result<(), AllocError>
        ensures stacks { self.new.stacks ≡ self.old.stacks }
        ensures work { self.new.work ≡ self.old.work }
        ensures regions { OnOk result ((past : List EventOf) → HoldsRegions self.old.regions past →
            HoldsRegions self.new.regions (event.now ∷ past)) }
        ensures nodes { OnOk result ((past : List EventOf) → HoldsRegions self.old.regions past →
            HoldsNodes self.old.nodes.items past past →
            Unbroken past → first_broken past event.now ≡ None →
            HoldsNodes self.new.nodes.items (event.now ∷ past) past) }
    {
        match making_by(&event.call) {
            Making::Region(region, task) => {
                self.regions.insert(region, task)?;
            }
            Making::Implicit(task, region, flags) => {
                let parent = self.regions.get(&region).copied().unwrap_or(0);
                self.nodes.push(TaskNode::made(task, parent, flags))?;
            }
            Making::Explicit(task, creator, flags) => {
                self.nodes.push(TaskNode::made(task, creator, flags))?;
            }
            Making::Nothing => {}
        }
        Ok(())
    }

    /// The forest of the events so far, with these chains.
    pub fn finish(self, chains: Chains) -> Forest
        ensures { (past : List EventOf) → Builds self past → chains.longest.length ≡ span_of past →
            IsWalk chains.links.items past chains.longest → Unbroken past → HoldsForest result past }
    {
        Forest::linked(self.nodes, self.work, chains)
    }
}

/// Counts an event of a task.
fn count_event(nodes: &mut [TaskNode], task: u32) -> Result<(), AllocError>
    ensures { OnOk result (CountsOne nodes.old nodes.new task) }
{
    let Some(place) = task.checked_sub(1) else {
        return Ok(());
    };
    let place = place as usize;
    if place < nodes.len() {
        let events = nodes[place].events.checked_add(1).ok_or(AllocError)?;
        nodes[place].events = events;
    }
    Ok(())
}
