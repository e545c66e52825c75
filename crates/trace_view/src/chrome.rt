//! The items of a trace in the Trace Event Format.

ghost use Rattle.std.specs.Prelude.{◌≡◌, IfOk};
ghost use Rattle.trace_view.specs.Chrome.{chrome_end, chrome_event, chrome_head, chrome_item};

use crate::mark::MaybeMark;
use crate::marks::{own_marks, slice_mark};
use crate::number_names::{Enumeration, NumberName};
use ompt_calls::EventRecord;
use std::alloc::{AllocError, Global};
use trace_format::{EndMark, Item};

/// How the array begins, with the name of the process.
const HEAD: &[u8] =
    b"[\n{\"ph\":\"M\",\"pid\":1,\"name\":\"process_name\",\"args\":{\"name\":\"ompt\"}}";

/// The text of an item.
pub(crate) fn chrome_item(alloc: Global, item: &Item) -> Result<Vec<u8>, AllocError>
    ensures { IfOk result (λ text. text.items ≡ chrome_item item.now) }
{
    match item {
        Item::Header(_) => chrome_head(alloc),
        Item::Event(event) => chrome_event(alloc, event),
        Item::End(end) => chrome_end(alloc, end),
        Item::More => Ok(Vec::new(alloc)),
    }
}

/// How the array begins.
fn chrome_head(alloc: Global) -> Result<Vec<u8>, AllocError>
    ensures { IfOk result (λ text. text.items ≡ chrome_head) }
{
    Vec::from_slice(alloc, HEAD)
}

/// The objects of an event's marks.
fn chrome_event(alloc: Global, event: &EventRecord) -> Result<Vec<u8>, AllocError>
    ensures { IfOk result (λ text. text.items ≡ chrome_event event.now) }
{
    let event = *event;
    let (first, second) = own_marks(&event.call);
    let text = format!(in alloc;
        "{}{}{}",
        MaybeMark {
            event,
            kind: slice_mark(&event.call)
        },
        MaybeMark { event, kind: first },
        MaybeMark {
            event,
            kind: second
        }
    )?;
    Ok(text.into_bytes())
}

/// How the array ends, with how the run ended.
fn chrome_end(alloc: Global, end: &EndMark) -> Result<Vec<u8>, AllocError>
    ensures { IfOk result (λ text. text.items ≡ chrome_end end.now) }
{
    let ending = NumberName {
        of: Enumeration::Ending,
        number: u32::from(end.status),
    };
    let text = format!(in alloc;
        ",\n{{\"ph\":\"M\",\"pid\":1,\"name\":\"process_labels\",\"args\":{{\"labels\":\"{ending} {}\"}}}}\n]\n",
        end.detail
    )?;
    Ok(text.into_bytes())
}
