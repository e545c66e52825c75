//! The events of several recorders in one list.

ghost use Rattle.std.specs.Prelude.{◌≡◌, IfOk, List};
ghost use Rattle.std.specs.List.{flat_map};
ghost use Rattle.ompt_calls.specs.declared.event.EventRecord.{EventRecord};
ghost use Rattle.tool_report.specs.Order.{AreShared};

use crate::recorder::Recorder;
use ompt_calls::EventRecord;
use std::alloc::Global;

/// The error of a list or a text that found no memory.
pub type Memory = std::alloc::AllocError;

/// The records of these recorders, in the order of their positions.
pub fn merge(alloc: Global, parts: &[Recorder]) -> Result<Vec<EventRecord>, Memory>
    ensures { IfOk result (λ merged. (events : List EventRecord) → AreShared events parts.now → merged.items ≡ events) }
{
    let mut events = gathered(alloc, parts)?;
    events.sort_unstable_by_key(|event| event.seq);
    Ok(events)
}

/// The records of these recorders, one recorder after another.
fn gathered(alloc: Global, parts: &[Recorder]) -> Result<Vec<EventRecord>, Memory>
    ensures { IfOk result (λ events. events.items ≡ flat_map (λ (part : List EventRecord). part) parts.now) }
{
    let mut events = Vec::new(alloc);
    for part in parts {
        events.extend_from_slice(part.events())?;
    }
    Ok(events)
}
