//! Fields at the front of bytes. Each function is told how many bytes there are in all, and gives what it read and the bytes behind it.

ghost use Rattle.std.specs.Prelude.{◌≡◌, ◌-◌, length};
ghost use Rattle.history_file.specs.Reading.{Gives, passed, plain_at, text_at};

use crate::reason::{HistoryFault, HistoryReason};
use byteorder::{BigEndian, ByteOrder};

/// A number of 8 bits.
pub fn byte_at(total: usize, bytes: &[u8]) -> Result<(u8, &[u8]), HistoryFault>
    ensures { Gives (λ x. (x.0, x.1.now)) result (plain_at total 1 bytes.now) }
{
    let (front, rest) = text_at(total, 1, bytes)?;
    Ok((front[0], rest))
}

/// A number of 16 bits.
pub fn half_at(total: usize, bytes: &[u8]) -> Result<(u16, &[u8]), HistoryFault>
    ensures { Gives (λ x. (x.0, x.1.now)) result (plain_at total 2 bytes.now) }
{
    let (front, rest) = text_at(total, 2, bytes)?;
    Ok((BigEndian::read_u16(front), rest))
}

/// A number of 32 bits.
pub fn short_at(total: usize, bytes: &[u8]) -> Result<(u32, &[u8]), HistoryFault>
    ensures { Gives (λ x. (x.0, x.1.now)) result (plain_at total 4 bytes.now) }
{
    let (front, rest) = text_at(total, 4, bytes)?;
    Ok((BigEndian::read_u32(front), rest))
}

/// A number of 64 bits.
pub fn long_at(total: usize, bytes: &[u8]) -> Result<(u64, &[u8]), HistoryFault>
    ensures { Gives (λ x. (x.0, x.1.now)) result (plain_at total 8 bytes.now) }
{
    let (front, rest) = text_at(total, 8, bytes)?;
    Ok((BigEndian::read_u64(front), rest))
}

/// So many bytes.
pub fn text_at(total: usize, width: usize, bytes: &[u8]) -> Result<(&[u8], &[u8]), HistoryFault>
    ensures { Gives (λ x. (x.0.now, x.1.now)) result (text_at total width bytes.now) }
{
    if bytes.len() < width {
        return Err(HistoryFault::Refused(HistoryReason::Truncated, total as u64));
    }
    Ok(bytes.split_at(width))
}

/// Lets a field that begins these bytes pass, or refuses it for this reason.
pub fn pass(
    accepted: bool,
    reason: HistoryReason,
    total: usize,
    bytes: &[u8],
) -> Result<(), HistoryFault>
    ensures { Gives (λ _. tt) result (passed accepted reason (total - length bytes.now)) }
{
    if accepted {
        Ok(())
    } else {
        let offset = total.saturating_sub(bytes.len());
        Err(HistoryFault::Refused(reason, offset as u64))
    }
}
