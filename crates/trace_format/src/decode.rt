//! The item that whole bytes spell.

ghost use Rattle.std.specs.Prelude.{◌≡◌, ◌≤◌, ◌+◌, ◌<◌, drop, length, true};
ghost use Rattle.byteorder.specs.Endian.{big_number};
ghost use Rattle.omp_codes.specs.Answers.{in_profile};
ghost use Rattle.trace_format.specs.Decoding.{IsCallIn, IsEventIn, IsItemIn, end_in, frame_at, header_in, long_at, short_at, word_at};
ghost use Rattle.trace_format.specs.Flat.{SpellsItem, arguments_width};

use crate::item::Item;
use crate::trace::{EndMark, Header};
use byteorder::{BigEndian, ByteOrder};
use omp_codes::callbacks;
use ompt_calls::{Call, EventRecord, Frame, Word, by_callback};

/// The byte at this place.
pub fn byte_at(bytes: &[u8], place: usize) -> u8
    requires { place < length bytes.now }
    ensures { result ≡ big_number 1 (drop place bytes.now) }
{
    bytes[place]
}

/// The number of 16 bits that begins at this place.
pub fn half_at(bytes: &[u8], place: usize) -> u16
    requires { place + 2 ≤ length bytes.now }
    ensures { result ≡ big_number 2 (drop place bytes.now) }
{
    BigEndian::read_u16(&bytes[place..])
}

/// The number of 32 bits that begins at this place.
pub fn short_at(bytes: &[u8], place: usize) -> u32
    requires { place + 4 ≤ length bytes.now }
    ensures { result ≡ short_at place bytes.now }
{
    BigEndian::read_u32(&bytes[place..])
}

/// The number of 64 bits that begins at this place.
pub fn long_at(bytes: &[u8], place: usize) -> u64
    requires { place + 8 ≤ length bytes.now }
    ensures { result ≡ long_at place bytes.now }
{
    BigEndian::read_u64(&bytes[place..])
}

/// The number of 32 bits at this place, and the place behind it.
fn next_short(bytes: &[u8], place: &mut usize) -> u32
    requires { place.old + 4 ≤ length bytes.now }
    ensures value { result ≡ short_at place.old bytes.now }
    ensures place { place.new ≡ place.old + 4 }
{
    let at = *place;
    *place += 4;
    short_at(bytes, at)
}

/// The number of 64 bits at this place, and the place behind it.
fn next_long(bytes: &[u8], place: &mut usize) -> u64
    requires { place.old + 8 ≤ length bytes.now }
    ensures value { result ≡ long_at place.old bytes.now }
    ensures place { place.new ≡ place.old + 8 }
{
    let at = *place;
    *place += 8;
    long_at(bytes, at)
}

/// The data word at this place, and the place behind it.
fn next_word(bytes: &[u8], place: &mut usize) -> Word
    requires { place.old + 12 ≤ length bytes.now }
    ensures value { result ≡ word_at place.old bytes.now }
    ensures place { place.new ≡ place.old + 12 }
{
    Word {
        identity: next_short(bytes, place),
        value: next_long(bytes, place),
    }
}

/// The frame at this place, and the place behind it.
fn next_frame(bytes: &[u8], place: &mut usize) -> Frame
    requires { place.old + 8 ≤ length bytes.now }
    ensures value { result ≡ frame_at place.old bytes.now }
    ensures place { place.new ≡ place.old + 8 }
{
    Frame {
        exit: next_short(bytes, place),
        enter: next_short(bytes, place),
    }
}

/// The argument at this place.
macro_rules! next_of {
    ($bytes:expr, $place:expr, Short) => {
        next_short($bytes, &mut $place)
    };
    ($bytes:expr, $place:expr, Long) => {
        next_long($bytes, &mut $place)
    };
    ($bytes:expr, $place:expr, Word) => {
        next_word($bytes, &mut $place)
    };
    ($bytes:expr, $place:expr, Frame) => {
        next_frame($bytes, &mut $place)
    };
}

/// The callback of each row, of the arguments that come one after the other.
macro_rules! call_by_row {
    ($of:expr, $bytes:expr, $place:expr; $($number:ident $variant:ident { $($field:ident: $form:ident),+ })+) => {
        match $of {
            $(callbacks::$number => Call::$variant {
                $($field: next_of!($bytes, $place, $form)),+
            },)+
            _ => unreachable!(),
        }
    };
}

/// The callback of the profile with this number whose arguments these bytes are.
fn call_in(number: u32, args: &[u8]) -> Call
    requires profile { in_profile number ≡ true }
    requires whole { arguments_width number ≤ length args.now }
    ensures { IsCallIn number args.now result }
{
    let mut place = 0;
    by_callback!(call_by_row, number, args, place)
}

/// The header that these bytes are.
fn header_in(bytes: &[u8]) -> Header
    requires { 16 ≤ length bytes.now }
    ensures { result ≡ header_in bytes.now }
{
    Header {
        version: half_at(bytes, 4),
        threads: byte_at(bytes, 6),
        origin: byte_at(bytes, 7),
        mask: long_at(bytes, 8),
    }
}

/// The event that these bytes are.
fn event_in(bytes: &[u8]) -> EventRecord
    requires profile { in_profile (big_number 1 bytes.now) ≡ true }
    requires whole { 12 + arguments_width (big_number 1 bytes.now) ≤ length bytes.now }
    ensures { IsEventIn bytes.now result }
{
    EventRecord {
        seq: short_at(bytes, 1),
        thread: byte_at(bytes, 5),
        state: half_at(bytes, 6),
        wait_id: short_at(bytes, 8),
        call: call_in(u32::from(byte_at(bytes, 0)), &bytes[12..]),
    }
}

/// The end mark that these bytes are.
fn end_in(bytes: &[u8]) -> EndMark
    requires { 10 ≤ length bytes.now }
    ensures { result ≡ end_in bytes.now }
{
    EndMark {
        status: byte_at(bytes, 1),
        detail: short_at(bytes, 2),
        count: short_at(bytes, 6),
    }
}

/// The item that these bytes are, where the header has come or not.
pub fn item_in(header: &Option<Header>, bytes: &[u8]) -> Item
    requires { SpellsItem header.now bytes.now }
    ensures { IsItemIn header.now bytes.now result }
{
    match header {
        None => Item::Header(header_in(bytes)),
        Some(_) => {
            if byte_at(bytes, 0) == 0 {
                Item::End(end_in(bytes))
            } else {
                Item::Event(event_in(bytes))
            }
        }
    }
}
