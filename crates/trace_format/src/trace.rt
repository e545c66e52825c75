//! A trace and its parts.

ghost use Rattle.std.specs.Prelude.{◌≡◌};

use ompt_calls::{EventRecord, Sequence};

/// The number below which the sequence numbers of a trace lie: a history has at most five entries for each of 524,288 turns.
pub const SEQ_LIMIT: u32 = 2_621_440;

/// The four bytes with which a trace begins, `OMPT`, as a number.
pub(crate) const MAGIC: u32 = 0x4F4D_5054;

/// The first version of the format. It doesn't know the callback dispatch.
pub const FIRST_VERSION: u16 = 1;

/// The version that is written.
pub const VERSION: u16 = 2;

/// The origin of a trace that a run has recorded, and of each trace of the first version.
pub const RECORDED: u8 = 0;

/// The origin of a trace that was of the first version, and was written again in the second.
pub const MIGRATED: u8 = 1;

/// How a trace begins.
#[derive(Clone, Copy, Debug, PartialEq, Eq)]
pub struct Header {
    /// The version of the format: [`FIRST_VERSION`] or [`VERSION`].
    pub version: u16,
    /// How many threads the run had: 1 to 16.
    pub threads: u8,
    /// Where the trace comes from: [`RECORDED`] or [`MIGRATED`].
    pub origin: u8,
    /// The callbacks that were registered: bit n for number n.
    pub mask: u64,
}

/// How a trace ends.
#[derive(Clone, Copy, Debug, PartialEq, Eq)]
pub struct EndMark {
    /// The status of the run: 0 done, 1 returned, 4 trapped, 5 deadlock, 6 limit.
    pub status: u8,
    /// What main returned, as two's complement, or the number of the trap or of the limit; 0 at the other statuses.
    pub detail: u32,
    /// The number of events.
    pub count: u32,
}

/// The events of a trace, in order.
pub type Events = Sequence<EventRecord>;

/// A recorded run: its header, the events that were heard, and its end.
#[derive(Drop)]
pub struct Trace {
    /// The header.
    pub header: Header,
    /// The events, by rising sequence numbers.
    pub events: Events,
    /// The end mark.
    pub end: EndMark,
}
