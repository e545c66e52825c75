//! The line of a call: what its inquiries are answered.

ghost use Rattle.std.specs.Prelude.{◌≡◌, ◌++◌, IfOk};
ghost use Rattle.ompt_levels.specs.LevelLine.{line_text, region_text, regions_text, task_text, tasks_text};

use ompt_calls::{RegionLevel, RegionLevels, Snapshot, TaskLevel, TaskLevels};
use std::alloc::{AllocError, Global};

/// The line of a call at this position of the history, on this thread. It has the thread's state and wait identifier, then each level of
/// tasks and then each of regions, the innermost first, with one space between and a newline at its end.
pub(crate) fn line_of(
    alloc: Global,
    seq: u32,
    thread: u8,
    snapshot: &Snapshot,
) -> Result<Vec<u8>, AllocError>
    ensures { IfOk result (λ line. line.items ≡ line_text seq thread snapshot.now) }
{
    let (state, wait_id) = snapshot.get_state();
    let mut line = format!(in alloc; "{seq} {thread} {state} {wait_id}")?.into_bytes();
    add_tasks(&mut line, alloc, &snapshot.tasks)?;
    add_regions(&mut line, alloc, &snapshot.regions)?;
    line.push(b'\n')?;
    Ok(line)
}

/// Adds the levels of tasks to the line.
fn add_tasks(line: &mut Vec<u8>, alloc: Global, levels: &TaskLevels) -> Result<(), AllocError>
    ensures { IfOk result (λ done. line.new.items ≡ line.old.items ++ tasks_text levels.now) }
{
    for level in levels.as_slice() {
        let text = text_of_task(alloc, level)?;
        line.extend_from_slice(text.as_slice())?;
    }
    Ok(())
}

/// Adds the levels of regions to the line.
fn add_regions(line: &mut Vec<u8>, alloc: Global, levels: &RegionLevels) -> Result<(), AllocError>
    ensures { IfOk result (λ done. line.new.items ≡ line.old.items ++ regions_text levels.now) }
{
    for level in levels.as_slice() {
        let text = text_of_region(alloc, level)?;
        line.extend_from_slice(text.as_slice())?;
    }
    Ok(())
}

/// A level of tasks, with a space before it.
fn text_of_task(alloc: Global, level: &TaskLevel) -> Result<Vec<u8>, AllocError>
    ensures { IfOk result (λ text. text.items ≡ task_text level.now) }
{
    let TaskLevel {
        flags,
        word,
        frame,
        region,
        index,
    } = level;
    let text = format!(in alloc; " task {flags} {word} {frame} {region} {index}")?;
    Ok(text.into_bytes())
}

/// A level of regions, with a space before it.
fn text_of_region(alloc: Global, level: &RegionLevel) -> Result<Vec<u8>, AllocError>
    ensures { IfOk result (λ text. text.items ≡ region_text level.now) }
{
    let RegionLevel { word, team } = level;
    let text = format!(in alloc; " region {word} {team}")?;
    Ok(text.into_bytes())
}
