//! Building the longest chains event by event.

ghost use Rattle.std.specs.Prelude.{◌≡◌, ◌∷◌, ◌+◌, ℕ, [], List, IfOk, None, OnOk, Some};
ghost use Rattle.ompt_calls.specs.declared.event.EventRecord.{EventRecord as EventOf};
ghost use Rattle.trace_check.specs.Checking.{Unbroken};
ghost use Rattle.trace_check.specs.Rules.{first_broken};
ghost use Rattle.tool_tasks.specs.declared.key.Key.TheVariants.{Next};
ghost use Rattle.tool_tasks.specs.Charge.{charged_task};
ghost use Rattle.tool_tasks.specs.Holding.{HoldsChains, HoldsNodes, HoldsReaches, IsWalk};
ghost use Rattle.tool_tasks.specs.Reaching.{span_of};

use crate::chain_keys::{events_of, given_keys, taken_keys};
use crate::chain_tasks::ChainTasks;
use crate::chains::Chains;
use crate::forest::TaskNode;
use crate::key::Key;
use crate::reaches::Reaches;
use ompt_calls::EventRecord;
use std::alloc::{AllocError, Global};

/// What is known of chains of the events so far.
#[derive(Drop)]
pub(crate) struct ChainBuilder {
    /// The tasks that were made.
    pub tasks: ChainTasks,
    /// The longest chains.
    pub reaches: Reaches,
}

impl ChainBuilder {
    /// Before the first event there is the initial task.
    pub fn new(alloc: Global) -> Result<ChainBuilder, AllocError>
        ensures { IfOk result (λ builder. HoldsChains builder []) }
    {
        Ok(ChainBuilder {
            tasks: ChainTasks::new(alloc)?,
            reaches: Reaches::new(alloc),
        })
    }

    /// Learns of the next event of a nested trace, which is charged to this task. The nodes are those after it.
    pub fn learn(
        &mut self,
        event: &EventRecord,
        charged: Option<u32>,
        nodes: &[TaskNode],
    ) -> Result<(), AllocError>
        ensures { OnOk result ((past : List EventOf) → HoldsChains self.old past →
            charged ≡ charged_task past event.now →
            HoldsNodes nodes.now (event.now ∷ past) (event.now ∷ past) → Unbroken past →
            first_broken past event.now ≡ None →
            HoldsChains self.new (event.now ∷ past)) }
    {
        self.charge(event, charged, nodes)?;
        self.tasks.learn(event)?;
        Ok(())
    }

    /// The chains of the events so far.
    pub fn finish(self) -> Chains
        ensures span { (past : List EventOf) → HoldsChains self past → result.longest.length ≡ span_of past }
        ensures walk { (past : List EventOf) → HoldsChains self past → IsWalk result.links.items past result.longest }
    {
        self.reaches.finish()
    }

    /// Adds an event that is charged to this task.
    fn charge(
        &mut self,
        event: &EventRecord,
        charged: Option<u32>,
        nodes: &[TaskNode],
    ) -> Result<(), AllocError>
        ensures tasks { self.new.tasks ≡ self.old.tasks }
        ensures reaches { OnOk result ((past : List EventOf) → HoldsChains self.old past →
            charged ≡ charged_task past event.now →
            HoldsNodes nodes.now (event.now ∷ past) (event.now ∷ past) → Unbroken past →
            first_broken past event.now ≡ None →
            HoldsReaches self.new.reaches (event.now ∷ past)) }
    {
        let Some(task) = charged else {
            return Ok(());
        };
        let count = events_of(nodes, task);
        let next = next_taken(task, count);
        let taken = taken_keys(&self.tasks, &event.call);
        let reach = self.reaches.add(event.seq, next, taken)?;
        let given = given_keys(&self.tasks, event, nodes);
        self.reaches.give_all(Key::Next(task, count), given, reach)?;
        Ok(())
    }
}

/// The key that an event takes that is the last of so many of its task.
fn next_taken(task: u32, count: u32) -> Option<Key>
    ensures { (before : ℕ) → count ≡ before + 1 → result ≡ Some (Next task before) }
{
    match count.checked_sub(1) {
        Some(before) => Some(Key::Next(task, before)),
        None => None,
    }
}
