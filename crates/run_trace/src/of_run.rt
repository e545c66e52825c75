//! The trace of a run.

ghost use Rattle.std.specs.Prelude.{◌≡◌, ◌≢◌, ◌≤◌, Some, length};
ghost use Rattle.trace_format.specs.declared.trace.EndMark.{EndMark};
ghost use Rattle.run_trace.specs.TraceOf.{FitsCause, detail_of, status_of, trace_with};

use omp_model::Cause;
use ompt_calls::{EventRecord, Sequence};
use trace_format::{EndMark, Header, RECORDED, SEQ_LIMIT, Trace, VERSION};

/// The trace of a run with so many threads and these callbacks registered, that ended in this cause, and of which these events were heard. A run that
/// found no memory has none.
pub fn trace_of(threads: u8, mask: u64, cause: Cause, events: Vec<EventRecord>) -> Option<Trace>
    requires few { length events.items ≤ SEQ_LIMIT }
    ensures is { cause ≢ Cause.Memory → result ≡ Some (trace_with threads mask cause events.items) }
    // What main returned fits its field, by its type.
    ensures fits { FitsCause cause }
{
    let (status, detail) = end_of(cause)?;
    let end = EndMark {
        status,
        detail,
        count: events.len() as u32,
    };
    Some(Trace {
        header: Header {
            version: VERSION,
            threads,
            origin: RECORDED,
            mask,
        },
        events: Sequence(events),
        end,
    })
}

/// The status and the detail of the end mark of a run that ended in this cause.
fn end_of(cause: Cause) -> Option<(u8, u32)>
    ensures is { cause ≢ Cause.Memory → result ≡ Some (status_of cause, detail_of cause) }
    ensures fits { FitsCause cause }
{
    match cause {
        Cause::Done => Some((0, 0)),
        Cause::Returned(value) => Some((1, value.cast_unsigned())),
        Cause::Trapped(number) => Some((4, u32::from(number))),
        Cause::Deadlock => Some((5, 0)),
        Cause::Limit(number) => Some((6, u32::from(number))),
        Cause::Memory => None,
    }
}
