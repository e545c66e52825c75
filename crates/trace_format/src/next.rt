//! Which field comes next.

ghost use Rattle.std.specs.Prelude.{◌≡◌, ◌≤◌, ◌-◌, Some, length, slice_get};
ghost use Rattle.byteorder.specs.Endian.{big_number};
ghost use Rattle.trace_format.specs.Accepting.{kinds_of};
ghost use Rattle.trace_format.specs.declared.kind.Kind.{Kind};
ghost use Rattle.trace_format.specs.Flat.{HasNumber, IsFront, argument_of, coming_at, end_coming, event_coming, header_coming, record_coming, stage_in, test_of};

use crate::decode::{byte_at, half_at, short_at};
use crate::field::Field;
use crate::kept::Kept;
use crate::kind::{Kind, kinds_of};
use crate::test::Test;
use crate::trace::Header;

/// A field that comes next, and the test that its bytes must pass.
#[derive(Clone, Copy)]
pub struct Coming {
    /// Which field it is.
    pub field: Field,
    /// The test.
    pub test: Test,
}

/// The field that comes next, where so many fields of an item are whole and the first of the bytes are theirs; none where the item is whole, or
/// the end mark has come.
pub fn next_field(kept: &Kept, place: u8, bytes: &[u8]) -> Option<Coming>
    requires { IsFront (stage_in kept.now) place bytes.now }
    ensures { result ≡ coming_at (stage_in kept.now) place bytes.now }
{
    if kept.over {
        return None;
    }
    match &kept.header {
        None => header_field(place, bytes),
        Some(header) => record_field(header, kept, place, bytes),
    }
}

/// The field of a header that comes next.
fn header_field(place: u8, bytes: &[u8]) -> Option<Coming>
    requires three { place ≡ 3 → 7 ≤ length bytes.now }
    requires four { place ≡ 4 → 8 ≤ length bytes.now }
    ensures { result ≡ header_coming place bytes.now }
{
    let (field, test) = match place {
        0 => (Field::Magic, Test::Magic),
        1 => (Field::Version, Test::Version),
        2 => (Field::Threads, Test::Threads),
        3 => (Field::Origin, Test::Origin(half_at(bytes, 4))),
        4 => (
            Field::Mask,
            Test::Mask(half_at(bytes, 4), byte_at(bytes, 7)),
        ),
        _ => return None,
    };
    Some(Coming { field, test })
}

/// The field of an event or of an end mark that comes next.
fn record_field(header: &Header, kept: &Kept, place: u8, bytes: &[u8]) -> Option<Coming>
    requires { HasNumber place bytes.now }
    ensures { result ≡ record_coming header.now (stage_in kept.now) place bytes.now }
{
    if place == 0 {
        return Some(Coming {
            field: Field::Number,
            test: Test::Number(header.mask),
        });
    }
    match byte_at(bytes, 0) {
        0 => end_field(kept.count, place, bytes),
        number => event_field(kept.least, header.threads, u32::from(number), place, bytes),
    }
}

/// The field of an end mark that comes next.
fn end_field(count: u32, place: u8, bytes: &[u8]) -> Option<Coming>
    requires { place ≡ 2 → 2 ≤ length bytes.now }
    ensures { result ≡ end_coming count place bytes.now }
{
    let (field, test) = match place {
        1 => (Field::Numbered(1), Test::Status),
        2 => (Field::Numbered(2), Test::Detail(byte_at(bytes, 1))),
        3 => (Field::Count, Test::Count(count)),
        _ => return None,
    };
    Some(Coming { field, test })
}

/// The field of an event that comes next.
fn event_field(least: u32, threads: u8, number: u32, place: u8, bytes: &[u8]) -> Option<Coming>
    requires some { 1 ≤ place }
    requires third { slice_get (kinds_of number) (place - 5) ≡ Some Kind.Iterations → 5 ≤ place →
        40 ≤ length bytes.now }
    ensures { result ≡ event_coming least threads number place bytes.now }
{
    let (field, test) = match place {
        1 => (Field::Seq, Test::Seq(least)),
        2 => (Field::Numbered(2), Test::Thread(threads)),
        3 => (Field::Numbered(3), Test::State),
        4 => (Field::Numbered(4), Test::Any),
        _ => return argument_field(number, place, bytes),
    };
    Some(Coming { field, test })
}

/// The field of an argument that comes next.
fn argument_field(number: u32, place: u8, bytes: &[u8]) -> Option<Coming>
    requires front { 5 ≤ place }
    requires third { slice_get (kinds_of number) (place - 5) ≡ Some Kind.Iterations → 40 ≤ length bytes.now }
    ensures { result ≡ argument_of place (slice_get (kinds_of number) (place - 5)) bytes.now }
{
    match kinds_of(number).get(usize::from(place) - 5) {
        None => None,
        Some(kind) => Some(Coming {
            field: Field::Numbered(place),
            test: test_of(*kind, bytes),
        }),
    }
}

/// The test of an argument of the kind.
fn test_of(kind: Kind, bytes: &[u8]) -> Test
    requires { kind ≡ Kind.Iterations → 40 ≤ length bytes.now }
    ensures { result ≡ test_of kind bytes.now }
{
    match kind {
        Kind::Iterations => Test::Iterations(short_at(bytes, 36)),
        other => Test::Argument(other),
    }
}
