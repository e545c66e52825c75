//! The lines of what several listers were told.

ghost use Rattle.std.specs.Prelude.{◌≡◌, IfOk, List};
ghost use Rattle.ompt_calls.specs.declared.event.EventRecord.{EventRecord};
ghost use Rattle.omp_model.specs.Records.{lines_of};
ghost use Rattle.tool_report.specs.Order.{AreShared};

use crate::merging::{Memory, merge};
use crate::recorder::Lister;
use ompt_calls::{EventRecord, line_of};
use std::alloc::Global;

/// A line for each record of these listers, in the order of their positions.
pub fn lines_text(alloc: Global, parts: &[Lister]) -> Result<Vec<u8>, Memory>
    ensures { IfOk result (λ text. (events : List EventRecord) → AreShared events parts.now →
        text.items ≡ lines_of events) }
{
    let events = merge(alloc, parts)?;
    text_of(alloc, events.as_slice())
}

/// A line for each record, in their order.
fn text_of(alloc: Global, events: &[EventRecord]) -> Result<Vec<u8>, Memory>
    ensures { IfOk result (λ text. text.items ≡ lines_of events.now) }
{
    let mut text = Vec::new(alloc);
    for event in events {
        let line = line_of(alloc, event.seq, event.thread, &event.call)?;
        text.extend_from_slice(line.as_slice())?;
    }
    Ok(text)
}
