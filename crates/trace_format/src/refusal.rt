//! Why bytes are refused that are no trace.

ghost use Rattle.std.specs.Prelude.{◌≡◌, ◌≤◌, length};
ghost use Rattle.trace_format.specs.Flat.{reason_width};
ghost use Rattle.trace_format.specs.Refusing.{number_of_reason, reason_of};

use crate::decode::{byte_at, short_at};
use crate::field::Field;
use crate::trace::SEQ_LIMIT;
use omp_codes::callbacks;
use thiserror::Error;

/// What is wrong with the bytes.
#[derive(Clone, Copy, Debug, PartialEq, Eq)]
pub enum Reason {
    /// The first four bytes aren't those of a trace.
    BadMagic,
    /// The version isn't known.
    BadVersion,
    /// The threads, the origin or the mask can't be.
    BadHeader,
    /// The number of a record is neither 0 nor that of a callback of the profile.
    UnknownRecord,
    /// The field with this number has a value that it can't have.
    BadField(u8),
    /// The sequence number isn't greater than the one before.
    SeqNotRising,
    /// The callback isn't in the mask.
    NotRegistered,
    /// A byte stands after the end mark.
    AfterEnd,
    /// The bytes end before the end mark does.
    Truncated,
    /// The count isn't the number of events.
    BadCount,
}

impl Reason {
    /// What is wrong with a field that has these bytes.
    pub(crate) fn of(field: Field, bytes: &[u8]) -> Reason
        requires { reason_width field ≤ length bytes.now }
        ensures { result ≡ reason_of field bytes.now }
    {
        match field {
            Field::Magic => Reason::BadMagic,
            Field::Version => Reason::BadVersion,
            Field::Threads | Field::Origin | Field::Mask => Reason::BadHeader,
            Field::Number => {
                if callbacks::is_profile(u32::from(byte_at(bytes, 0))) {
                    Reason::NotRegistered
                } else {
                    Reason::UnknownRecord
                }
            }
            Field::Seq => {
                if short_at(bytes, 0) < SEQ_LIMIT {
                    Reason::SeqNotRising
                } else {
                    Reason::BadField(1)
                }
            }
            Field::Numbered(place) => Reason::BadField(place),
            Field::Count => Reason::BadCount,
        }
    }

    /// The reason's number, from 1 to 10.
    pub fn number(self) -> u8
        ensures { result ≡ number_of_reason self }
    {
        match self {
            Reason::BadMagic => 1,
            Reason::BadVersion => 2,
            Reason::BadHeader => 3,
            Reason::UnknownRecord => 4,
            Reason::BadField(_) => 5,
            Reason::SeqNotRising => 6,
            Reason::NotRegistered => 7,
            Reason::AfterEnd => 8,
            Reason::Truncated => 9,
            Reason::BadCount => 10,
        }
    }
}

/// Where the bytes are refused.
#[derive(Clone, Copy, Debug, PartialEq, Eq, Error)]
#[error("trace refused {} at {offset}", .reason.number())]
pub struct Refusal {
    /// What is wrong.
    pub reason: Reason,
    /// The first byte of the field that is wrong, counted from 0; the first byte after the end mark; the length of bytes that end too early.
    pub offset: u64,
}
