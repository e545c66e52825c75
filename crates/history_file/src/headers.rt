//! The header, but for the text.

ghost use Rattle.std.specs.Prelude.{◌≡◌, ◌==◌};
ghost use Rattle.history_file.specs.declared.file.TheConstants.{MAGIC, VERSION};
ghost use Rattle.history_file.specs.Fields.Field.{Magic, Version, Threads, Mask, Steps, Length};
ghost use Rattle.history_file.specs.Reading.{Gives, field_at, header_shape, is_mask, is_step_count, is_text_length, is_thread_count, run};

use crate::fields::{byte_at, half_at, long_at, pass, short_at};
use crate::file::{MAGIC, VERSION};
use crate::header::Header;
use crate::reason::{HistoryFault, HistoryReason};
use crate::values::{is_mask, is_step_count, is_text_length, is_thread_count};

/// The header at the front.
#[tactic(auto, unfolding(crate::specs::Reading::header_shape))]
pub fn header_of(total: usize, bytes: &[u8]) -> Result<(Header, &[u8]), HistoryFault>
    ensures { Gives (λ x. (x.0, x.1.now)) result (run header_shape total bytes.now) }
{
    let (_, rest) = magic_of(total, bytes)?;
    let (_, rest) = version_of(total, rest)?;
    let (threads, rest) = threads_of(total, rest)?;
    let (mask, rest) = mask_of(total, rest)?;
    let (steps, rest) = steps_of(total, rest)?;
    let (text_len, rest) = length_of(total, rest)?;
    Ok((
        Header {
            threads,
            mask,
            steps,
            text_len,
        },
        rest,
    ))
}

/// The four bytes with which a file begins.
fn magic_of(total: usize, bytes: &[u8]) -> Result<(u32, &[u8]), HistoryFault>
    ensures { Gives (λ x. (x.0, x.1.now)) result (field_at total Magic 4 (λ n. n == MAGIC) bytes.now) }
{
    let (n, rest) = short_at(total, bytes)?;
    pass(n == MAGIC, HistoryReason::BadMagic, total, bytes)?;
    Ok((n, rest))
}

/// The version.
fn version_of(total: usize, bytes: &[u8]) -> Result<(u16, &[u8]), HistoryFault>
    ensures { Gives (λ x. (x.0, x.1.now)) result (field_at total Version 2 (λ n. n == VERSION) bytes.now) }
{
    let (n, rest) = half_at(total, bytes)?;
    pass(n == VERSION, HistoryReason::BadVersion, total, bytes)?;
    Ok((n, rest))
}

/// How many threads the run had.
fn threads_of(total: usize, bytes: &[u8]) -> Result<(u8, &[u8]), HistoryFault>
    ensures { Gives (λ x. (x.0, x.1.now)) result (field_at total Threads 1 is_thread_count bytes.now) }
{
    let (n, rest) = byte_at(total, bytes)?;
    pass(is_thread_count(n), HistoryReason::BadHeader, total, bytes)?;
    Ok((n, rest))
}

/// The callbacks that were registered.
fn mask_of(total: usize, bytes: &[u8]) -> Result<(u64, &[u8]), HistoryFault>
    ensures { Gives (λ x. (x.0, x.1.now)) result (field_at total Mask 8 is_mask bytes.now) }
{
    let (n, rest) = long_at(total, bytes)?;
    pass(is_mask(n), HistoryReason::BadHeader, total, bytes)?;
    Ok((n, rest))
}

/// How many silent steps the run might make.
fn steps_of(total: usize, bytes: &[u8]) -> Result<(u32, &[u8]), HistoryFault>
    ensures { Gives (λ x. (x.0, x.1.now)) result (field_at total Steps 4 is_step_count bytes.now) }
{
    let (n, rest) = short_at(total, bytes)?;
    pass(is_step_count(n), HistoryReason::BadHeader, total, bytes)?;
    Ok((n, rest))
}

/// The length of the text.
fn length_of(total: usize, bytes: &[u8]) -> Result<(u32, &[u8]), HistoryFault>
    ensures { Gives (λ x. (x.0, x.1.now)) result (field_at total Length 4 is_text_length bytes.now) }
{
    let (n, rest) = short_at(total, bytes)?;
    pass(is_text_length(n), HistoryReason::BadHeader, total, bytes)?;
    Ok((n, rest))
}
