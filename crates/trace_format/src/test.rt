//! The tests that fields must pass.

ghost use Rattle.std.specs.Prelude.{◌≡◌, ◌≤◌, ◌==◌, ◌&&◌, ◌||◌, nat_le, nat_lt, if◌then◌else◌, length};
ghost use Rattle.omp_codes.specs.Answers.{in_profile};
ghost use Rattle.omp_codes.specs.States.{states};
ghost use Rattle.omp_codes.specs.declared.dispatch_kinds.TheConstants.{SECTION};
ghost use Rattle.ompt_calls.specs.Number.{is_registered};
ghost use Rattle.trace_format.specs.Accepting.{accepts_detail, accepts_mask};
ghost use Rattle.trace_format.specs.Flat.{passes, test_width};
ghost use Rattle.trace_format.specs.Validity.{is_among};

use crate::decode::{byte_at, half_at, long_at, short_at};
use crate::kind::{Kind, accepts_kind, width_of};
use crate::trace::{FIRST_VERSION, MAGIC, MIGRATED, RECORDED, SEQ_LIMIT, VERSION};
use omp_codes::callbacks;
use omp_codes::dispatch_kinds::SECTION;
use omp_codes::thread_states::{
    IDLE, OVERHEAD, WAIT_BARRIER_EXPLICIT, WAIT_BARRIER_IMPLICIT_PARALLEL,
    WAIT_BARRIER_IMPLICIT_WORKSHARE, WAIT_CRITICAL, WAIT_LOCK, WAIT_TASKWAIT, WORK_PARALLEL,
    WORK_SERIAL,
};
use ompt_calls::is_registered;

/// The test of a field, with what it needs of the fields before.
#[derive(Clone, Copy)]
pub enum Test {
    /// The four bytes with which a trace begins.
    Magic,
    /// A known version.
    Version,
    /// A number of threads.
    Threads,
    /// An origin that this version has.
    Origin(u16),
    /// A mask that this version and origin have.
    Mask(u16, u8),
    /// 0, or the number of a callback of this mask.
    Number(u64),
    /// A sequence number from this one on.
    Seq(u32),
    /// A number below this one.
    Thread(u8),
    /// The state of a thread.
    State,
    /// Any number of 32 bits.
    Any,
    /// An argument of this kind.
    Argument(Kind),
    /// How many iterations were dispatched, of this kind.
    Iterations(u32),
    /// The status of a run.
    Status,
    /// What is told of this status.
    Detail(u8),
    /// This number.
    Count(u32),
}

impl Test {
    /// How many bytes the field has.
    pub fn width(self) -> usize
        ensures { result ≡ test_width self }
    {
        match self {
            Test::Threads | Test::Origin(_) | Test::Number(_) | Test::Thread(_) | Test::Status => 1,
            Test::Version | Test::State => 2,
            Test::Mask(_, _) | Test::Iterations(_) => 8,
            Test::Argument(kind) => width_of(kind),
            _ => 4,
        }
    }

    /// Whether the bytes may stand in the field.
    pub fn passes(self, bytes: &[u8]) -> bool
        requires { test_width self ≤ length bytes.now }
        ensures { result ≡ passes self bytes.now }
    {
        match self {
            Test::Magic => short_at(bytes, 0) == MAGIC,
            Test::Version => matches!(half_at(bytes, 0), FIRST_VERSION | VERSION),
            Test::Threads => matches!(byte_at(bytes, 0), 1..=16),
            Test::Origin(version) => is_origin(byte_at(bytes, 0), version),
            Test::Mask(version, origin) => is_mask(version, origin, long_at(bytes, 0)),
            Test::Number(mask) => is_number(mask, byte_at(bytes, 0)),
            Test::Seq(least) => is_seq(least, short_at(bytes, 0)),
            Test::Thread(threads) => byte_at(bytes, 0) < threads,
            Test::State => is_state(half_at(bytes, 0)),
            Test::Any => true,
            Test::Argument(kind) => accepts_kind(kind, bytes),
            Test::Iterations(kind) => is_count(kind, long_at(bytes, 0)),
            Test::Status => matches!(byte_at(bytes, 0), 0 | 1 | 4 | 5 | 6),
            Test::Detail(status) => is_detail(status, short_at(bytes, 0)),
            Test::Count(count) => short_at(bytes, 0) == count,
        }
    }
}

/// Whether a trace of this version may have this origin.
fn is_origin(origin: u8, version: u16) -> bool
    ensures { result ≡ (origin == RECORDED || (origin == MIGRATED && version == VERSION)) }
{
    origin == RECORDED || (origin == MIGRATED && version == VERSION)
}

/// Whether a header of this version and origin may have this mask.
fn is_mask(version: u16, origin: u8, mask: u64) -> bool
    ensures { result ≡ accepts_mask version origin mask }
{
    mask & callbacks::PROFILE_MASK == mask
        && (!is_registered(mask, callbacks::DISPATCH) || (version == VERSION && origin == RECORDED))
}

/// Whether a record may have this number, where this is the mask.
fn is_number(mask: u64, number: u8) -> bool
    ensures { result ≡ (number == 0 || (in_profile number && is_registered mask number)) }
{
    let number = u32::from(number);
    number == 0 || (callbacks::is_profile(number) && is_registered(mask, number))
}

/// Whether an event may have this sequence number, where this is the least.
fn is_seq(least: u32, seq: u32) -> bool
    ensures { result ≡ (nat_le least seq && nat_lt seq SEQ_LIMIT) }
{
    least <= seq && seq < SEQ_LIMIT
}

/// Whether it is the state of a thread.
pub(crate) fn is_state(state: u16) -> bool
    ensures { result ≡ is_among states state }
{
    matches!(
        state,
        WORK_SERIAL
            | WORK_PARALLEL
            | WAIT_BARRIER_IMPLICIT_PARALLEL
            | WAIT_BARRIER_IMPLICIT_WORKSHARE
            | WAIT_BARRIER_EXPLICIT
            | WAIT_TASKWAIT
            | WAIT_LOCK
            | WAIT_CRITICAL
            | IDLE
            | OVERHEAD
    )
}

/// Whether so many iterations may be dispatched: a section has none, and a chunk has some.
fn is_count(kind: u32, iterations: u64) -> bool
    ensures { result ≡ (if kind == SECTION then iterations == 0 else nat_le 1 iterations) }
{
    if kind == SECTION {
        iterations == 0
    } else {
        iterations >= 1
    }
}

/// Whether this may be told of the status.
fn is_detail(status: u8, detail: u32) -> bool
    ensures { result ≡ accepts_detail status detail }
{
    match status {
        1 => detail >= 1,
        4 => detail >= 1 && detail <= 10,
        6 => detail >= 1 && detail <= 7,
        _ => detail == 0,
    }
}
