//! The tasks that a chain goes through.

ghost use Rattle.std.specs.Prelude.{◌≡◌, ◌==◌, ◌∷◌, [], IfOk, OnOk, if◌then◌else◌};
ghost use Rattle.std.specs.Ordering.{nat_cmp};
ghost use Rattle.std.specs.BTreeSet.{contains};
ghost use Rattle.omp_codes.specs.declared.task_statuses.TheConstants.{SWITCH};
ghost use Rattle.trace_view.specs.Bold.{Gains, HasNumbers};
ghost use Rattle.trace_view.specs.Dot.{crossed_tasks, listed, named_task};

use omp_codes::task_statuses::SWITCH;
use ompt_calls::{Call, EventRecord};
use std::alloc::{AllocError, Global};
use std::collections::BTreeSet;

/// The tasks that the events at these positions name.
pub(crate) fn crossed_tasks(
    alloc: Global,
    chain: &[u32],
    events: &[EventRecord],
) -> Result<BTreeSet<u32>, AllocError>
    ensures { IfOk result (λ tasks. HasNumbers tasks (crossed_tasks chain.now events.now)) }
{
    let positions = set_of(alloc, chain)?;
    let mut tasks = BTreeSet::new(alloc);
    for event in events {
        add_crossed(&mut tasks, &positions, event)?;
    }
    Ok(tasks)
}

/// Adds the task that an event names, if it is at one of these positions.
fn add_crossed(
    tasks: &mut BTreeSet<u32>,
    positions: &BTreeSet<u32>,
    event: &EventRecord,
) -> Result<(), AllocError>
    ensures { OnOk result (Gains tasks.old tasks.new (if contains nat_cmp positions.now event.now.seq
        then listed (named_task event.now.call) else [])) }
{
    if positions.contains(&event.seq) {
        add_named(tasks, &event.call)
    } else {
        Ok(())
    }
}

/// These numbers as a set.
fn set_of(alloc: Global, numbers: &[u32]) -> Result<BTreeSet<u32>, AllocError>
    ensures { IfOk result (λ set. HasNumbers set numbers.now) }
{
    let mut set = BTreeSet::new(alloc);
    for number in numbers {
        add(&mut set, *number)?;
    }
    Ok(set)
}

/// Adds the task that a call names, if it names one.
fn add_named(tasks: &mut BTreeSet<u32>, call: &Call) -> Result<(), AllocError>
    ensures { OnOk result (Gains tasks.old tasks.new (listed (named_task call.now))) }
{
    match named_task(call) {
        Some(task) => add(tasks, task),
        None => Ok(()),
    }
}

/// Adds a number.
fn add(set: &mut BTreeSet<u32>, number: u32) -> Result<(), AllocError>
    ensures { OnOk result (Gains set.old set.new (number ∷ [])) }
{
    set.insert(number)?;
    Ok(())
}

/// The task that a call names as the one whose event it is.
fn named_task(call: &Call) -> Option<u32>
    ensures { result ≡ named_task call.now }
{
    match call {
        Call::ParallelBegin { task, .. }
        | Call::ParallelEnd { task, .. }
        | Call::TaskCreate { task, .. }
        | Call::ImplicitTask { task, .. }
        | Call::SyncRegionWait { task, .. }
        | Call::Work { task, .. }
        | Call::Masked { task, .. }
        | Call::SyncRegion { task, .. }
        | Call::Dispatch { task, .. } => Some(task.identity),
        Call::TaskSchedule {
            prior,
            status,
            next,
        } => Some(scheduled_task(*status, prior.identity, next.identity)),
        _ => None,
    }
}

/// The task to which a thread goes, or the one that ends.
fn scheduled_task(status: u32, prior: u32, next: u32) -> u32
    ensures { result ≡ (if status == SWITCH then next else prior) }
{
    if status == SWITCH { next } else { prior }
}
