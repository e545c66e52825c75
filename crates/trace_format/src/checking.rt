//! Which traces can be written.

ghost use Rattle.std.specs.Prelude.{ℕ, ◌≡◌, ◌↔◌, [], ◌∷◌, true, IsTrue, IsFalse};
ghost use Rattle.omp_codes.specs.Answers.{in_profile};
ghost use Rattle.ompt_calls.specs.Number.{is_registered};
ghost use Rattle.trace_format.specs.Validity.{AreEvents, IsAmong, IsDetail, IsEvent, IsHeader, IsMask, IsOrigin, IsTrace};

use crate::arguments::is_call;
use crate::test::is_state;
use crate::trace::{FIRST_VERSION, Header, MIGRATED, RECORDED, SEQ_LIMIT, Trace, VERSION};
use omp_codes::PROFILE_MASK;
use omp_codes::callbacks::DISPATCH;
use ompt_calls::{EventRecord, is_registered};

/// Whether the trace can be: its header, each event and its end mark have only values of the format, the sequence numbers rise, each callback is
/// in the mask, and the count is the number of events.
pub fn valid(trace: &Trace) -> bool
    ensures yes { IsTrue result → IsTrace trace.now }
    ensures no { IsFalse result → IsTrace trace.now → ⊥ }
{
    let events = trace.events.0.as_slice();
    is_header(&trace.header)
        && are_events(&trace.header, events)
        && is_detail(trace.end.status, trace.end.detail)
        && trace.end.count as usize == events.len()
}

/// Whether a header can be.
fn is_header(header: &Header) -> bool
    ensures { IsTrue result ↔ IsHeader header.now }
{
    is_version(header.version)
        && header.threads >= 1
        && header.threads <= 16
        && is_origin(header.version, header.origin)
        && is_mask(header)
}

/// Whether the version is known.
fn is_version(version: u16) -> bool
    ensures { IsTrue result ↔ IsAmong (FIRST_VERSION ∷ VERSION ∷ []) version }
{
    version == FIRST_VERSION || version == VERSION
}

/// Whether a header of the version can have the origin.
fn is_origin(version: u16, origin: u8) -> bool
    ensures { IsTrue result ↔ IsOrigin version origin }
{
    origin == RECORDED || (origin == MIGRATED && version != FIRST_VERSION)
}

/// Whether the header can have its mask.
fn is_mask(header: &Header) -> bool
    ensures { IsTrue result ↔ IsMask header.now }
{
    has_profile_alone(header.mask) && may_have_dispatch(header)
}

/// Whether the mask has only callbacks of the profile.
fn has_profile_alone(mask: u64) -> bool
    ensures { IsTrue result ↔ ((number : ℕ) → is_registered mask number ≡ true → in_profile number ≡ true) }
{
    mask & PROFILE_MASK == mask
}

/// Whether dispatch is in the mask only where it can be: in a trace of the second version that was recorded so.
fn may_have_dispatch(header: &Header) -> bool
    ensures { IsTrue result ↔ (is_registered header.now.mask DISPATCH ≡ true → (header.now.version ≡ VERSION) ×
        (header.now.origin ≡ RECORDED)) }
{
    !is_registered(header.mask, DISPATCH)
        || (header.version == VERSION && header.origin == RECORDED)
}

/// Whether the events can be in a trace with this header.
fn are_events(header: &Header, events: &[EventRecord]) -> bool
    ensures { IsTrue result ↔ AreEvents SEQ_LIMIT header.now 0 events.now }
{
    let mut least = 0;
    for event in events {
        if event.seq < least || event.seq >= SEQ_LIMIT || !is_event(header, *event) {
            return false;
        }
        least = event.seq + 1;
    }
    true
}

/// Whether the event can be in a trace with this header.
fn is_event(header: &Header, event: EventRecord) -> bool
    ensures { IsTrue result ↔ IsEvent header.now event }
{
    is_registered(header.mask, event.call.number())
        && event.thread < header.threads
        && is_state(event.state)
        && is_call(event.call)
}

/// Whether a run can end with this status and detail.
fn is_detail(status: u8, detail: u32) -> bool
    ensures { IsTrue result ↔ IsDetail status detail }
{
    match status {
        0 | 5 => detail == 0,
        1 => detail >= 1,
        4 => detail >= 1 && detail <= 10,
        6 => detail >= 1 && detail <= 7,
        _ => false,
    }
}
