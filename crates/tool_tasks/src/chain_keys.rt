//! The keys that an event gives and takes.

ghost use Rattle.std.specs.Prelude.{◌≡◌, ◌∷◌, ◌==◌, List, None, Some, if◌then◌else◌};
ghost use Rattle.omp_codes.specs.declared.task_flags.TheConstants.{EXPLICIT_UNDEFERRED};
ghost use Rattle.ompt_calls.specs.declared.event.EventRecord.{EventRecord as EventOf};
ghost use Rattle.trace_check.specs.Checking.{Unbroken};
ghost use Rattle.trace_check.specs.Rules.{first_broken};
ghost use Rattle.tool_tasks.specs.Charge.{charges_of};
ghost use Rattle.tool_tasks.specs.Holding.{HoldsNodes, HoldsTasks, node_at};
ghost use Rattle.tool_tasks.specs.Keys.{given_by, given_by_completion, given_by_wait, key_of, taken_by, taken_by_wait};
ghost use Rattle.tool_tasks.specs.Leads.{joined_region, region_of};
ghost use Rattle.tool_tasks.specs.declared.key.Key.TheVariants.{Ended, Left, Next};
ghost use Rattle.tool_tasks.specs.Tree.{origin_of};

use crate::chain_tasks::{ChainTasks, INITIAL_REGION, is_barrier};
use crate::forest::TaskNode;
use crate::key::Key;
use omp_codes::endpoints::{BEGIN, END};
use omp_codes::sync_kinds::TASKWAIT;
use omp_codes::task_flags::{EXPLICIT_UNDEFERRED, INITIAL};
use omp_codes::task_statuses::{COMPLETE, SWITCH};
use ompt_calls::{Call, EventRecord};

/// The keys that an event takes, beside the place of its task's next event.
pub(crate) fn taken_keys(tasks: &ChainTasks, call: &Call) -> (Option<Key>, Option<Key>)
    ensures { (past : List EventOf) → HoldsTasks tasks.now past → result ≡ taken_by past call.now }
{
    match call {
        Call::ImplicitTask {
            endpoint,
            region,
            flags,
            ..
        } => {
            if *endpoint == BEGIN && *flags != INITIAL {
                (Some(Key::Begun(region.identity)), None)
            } else if *endpoint == END && *flags == INITIAL {
                (Some(Key::Ended(INITIAL_REGION)), None)
            } else {
                (None, None)
            }
        }
        Call::ParallelEnd { region, .. } => (Some(Key::Left(region.identity)), None),
        Call::TaskSchedule { status, next, .. } => {
            if *status == SWITCH {
                (Some(Key::Created(next.identity)), None)
            } else {
                (None, None)
            }
        }
        Call::SyncRegionWait {
            kind,
            endpoint,
            task,
            ..
        } => {
            if *endpoint == END {
                wait_taken(tasks, *kind, task.identity)
            } else {
                (None, None)
            }
        }
        _ => (None, None),
    }
}

/// The keys that the end of a task's wait takes.
fn wait_taken(tasks: &ChainTasks, kind: u32, task: u32) -> (Option<Key>, Option<Key>)
    ensures { (past : List EventOf) → HoldsTasks tasks.now past → result ≡ taken_by_wait past kind task }
{
    if kind == TASKWAIT {
        return (Some(Key::Child(task)), None);
    }
    if !is_barrier(kind) {
        return (None, None);
    }
    match tasks.joined(task) {
        Some(region) => (
            Some(Key::Ended(region)),
            Some(Key::Wait(region, tasks.ended(task))),
        ),
        None => (None, None),
    }
}

/// The keys that an event gives, beside the place of its task's next event. The nodes are those after it.
pub(crate) fn given_keys(
    tasks: &ChainTasks,
    event: &EventRecord,
    nodes: &[TaskNode],
) -> (Option<Key>, Option<Key>, Option<Key>)
    ensures { (past : List EventOf) → HoldsTasks tasks.now past →
        HoldsNodes nodes.now (event.now ∷ past) (event.now ∷ past) →
        Unbroken past → first_broken past event.now ≡ None → result ≡ given_by past event.now event.now.call }
{
    match &event.call {
        Call::ParallelBegin { region, .. } => (Some(Key::Begun(region.identity)), None, None),
        Call::ImplicitTask { endpoint, task, .. } => {
            if *endpoint == END {
                (left_given(tasks, task.identity), None, None)
            } else {
                (None, None, None)
            }
        }
        Call::TaskCreate { fresh, .. } => (Some(Key::Created(fresh.identity)), None, None),
        Call::TaskSchedule { prior, status, .. } => {
            if *status == COMPLETE {
                completion_given(tasks, prior.identity, nodes)
            } else {
                (None, None, None)
            }
        }
        Call::SyncRegionWait {
            kind,
            endpoint,
            task,
            ..
        } => {
            if *endpoint == BEGIN && is_barrier(*kind) {
                (wait_given(tasks, task.identity), None, None)
            } else {
                (None, None, None)
            }
        }
        _ => (None, None, None),
    }
}

/// The key that the end of an implicit task gives.
fn left_given(tasks: &ChainTasks, task: u32) -> Option<Key>
    ensures { (past : List EventOf) → HoldsTasks tasks.now past → result ≡ key_of Left (joined_region task past) }
{
    match tasks.joined(task) {
        Some(region) => Some(Key::Left(region)),
        None => None,
    }
}

/// The key that the begin of a task's wait at a barrier gives.
fn wait_given(tasks: &ChainTasks, task: u32) -> Option<Key>
    ensures { (past : List EventOf) → HoldsTasks tasks.now past → result ≡ given_by_wait past task }
{
    match tasks.region(task) {
        Some(region) => Some(Key::Wait(region, tasks.begun(task))),
        None => None,
    }
}

/// The keys that the completion of a task gives. The nodes are those after it.
fn completion_given(
    tasks: &ChainTasks,
    task: u32,
    nodes: &[TaskNode],
) -> (Option<Key>, Option<Key>, Option<Key>)
    ensures { (past : List EventOf) (event : EventOf) → HoldsTasks tasks.now past →
        HoldsNodes nodes.now (event ∷ past) (event ∷ past) →
        Unbroken (event ∷ past) → origin_of task (event ∷ past) ≡ origin_of task past →
        result ≡ given_by_completion past event task }
{
    let region = ended_given(tasks, task);
    match node_at(nodes, task) {
        Some(node) => (
            Some(Key::Child(node.parent)),
            region,
            parent_given(&node, nodes),
        ),
        None => (None, region, None),
    }
}

/// The key that the completion of a task gives to its region.
fn ended_given(tasks: &ChainTasks, task: u32) -> Option<Key>
    ensures { (past : List EventOf) → HoldsTasks tasks.now past → result ≡ key_of Ended (region_of task past) }
{
    match tasks.region(task) {
        Some(region) => Some(Key::Ended(region)),
        None => None,
    }
}

/// The key that the completion of a task gives to its parent, if it was undeferred.
fn parent_given(node: &TaskNode, nodes: &[TaskNode]) -> Option<Key>
    ensures { (past : List EventOf) → HoldsNodes nodes.now past past → Unbroken past →
        result ≡ (if node.now.flags == EXPLICIT_UNDEFERRED
        then Some (Next node.now.parent (charges_of node.now.parent past)) else None) }
{
    if node.flags == EXPLICIT_UNDEFERRED {
        Some(Key::Next(node.parent, events_of(nodes, node.parent)))
    } else {
        None
    }
}

/// A task's node.
pub(crate) fn node_at(nodes: &[TaskNode], task: u32) -> Option<TaskNode>
    ensures { result ≡ node_at nodes.now task }
{
    let place = task.checked_sub(1)?;
    nodes.get(place as usize).copied()
}

/// How many events are charged to a task.
pub(crate) fn events_of(nodes: &[TaskNode], task: u32) -> u32
    ensures { (past : List EventOf) → HoldsNodes nodes.now past past → Unbroken past → result ≡ charges_of task past }
{
    match node_at(nodes, task) {
        Some(node) => node.events,
        None => 0,
    }
}
