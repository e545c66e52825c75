//! The line of an event, and of the end mark, with names.

ghost use Rattle.std.specs.Prelude.{◌≡◌, IfOk};
ghost use Rattle.trace_view.specs.NamedLines.{end_line, event_line, named_item};

use crate::named_call::NamedCall;
use crate::number_names::{Enumeration, NumberName};
use ompt_calls::EventRecord;
use std::alloc::{AllocError, Global};
use trace_format::{EndMark, Item};

/// The lines of an item.
pub(crate) fn named_item(alloc: Global, item: &Item) -> Result<Vec<u8>, AllocError>
    ensures { IfOk result (λ text. text.items ≡ named_item item.now) }
{
    match item {
        Item::Event(event) => event_line(alloc, event),
        Item::End(end) => end_line(alloc, end),
        _ => Ok(Vec::new(alloc)),
    }
}

/// The line of an event with names, and its newline.
fn event_line(alloc: Global, event: &EventRecord) -> Result<Vec<u8>, AllocError>
    ensures { IfOk result (λ line. line.items ≡ event_line event.now) }
{
    let state = NumberName {
        of: Enumeration::State,
        number: u32::from(event.state),
    };
    let call = NamedCall { call: event.call };
    let line = format!(in alloc; "{} {} {state} {call}\n", event.seq, event.thread)?;
    Ok(line.into_bytes())
}

/// The line of the end mark with names, and its newline.
fn end_line(alloc: Global, end: &EndMark) -> Result<Vec<u8>, AllocError>
    ensures { IfOk result (λ line. line.items ≡ end_line end.now) }
{
    let ending = NumberName {
        of: Enumeration::Ending,
        number: u32::from(end.status),
    };
    let line = format!(in alloc; "end {ending} {} {}\n", end.detail, end.count)?;
    Ok(line.into_bytes())
}
