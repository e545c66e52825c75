//! The end of a file, behind its kind.

ghost use Rattle.std.specs.Prelude.{◌≡◌, ◌==◌, ◌≤◌};
ghost use Rattle.trace_format.specs.Accepting.{accepts_detail};
ghost use Rattle.history_file.specs.Fields.Field.{Status, Detail, Count};
ghost use Rattle.history_file.specs.Reading.{Gives, end_shape, field_at, is_status, run};

use crate::fields::{byte_at, pass, short_at};
use crate::header::End;
use crate::reason::{HistoryFault, HistoryReason};
use crate::values::{is_detail, is_status};

/// The end of a file with so many entries.
#[tactic(auto, unfolding(crate::specs::Reading::end_shape))]
pub fn end_of_file(count: usize, total: usize, bytes: &[u8]) -> Result<(End, &[u8]), HistoryFault>
    ensures { Gives (λ x. (x.0, x.1.now)) result (run (end_shape count) total bytes.now) }
{
    let (status, rest) = status_of(total, bytes)?;
    let (detail, rest) = detail_of(status, total, rest)?;
    let (_, rest) = count_of(count, total, rest)?;
    Ok((End { status, detail }, rest))
}

/// The status.
fn status_of(total: usize, bytes: &[u8]) -> Result<(u8, &[u8]), HistoryFault>
    ensures { Gives (λ x. (x.0, x.1.now)) result (field_at total Status 1 is_status bytes.now) }
{
    let (n, rest) = byte_at(total, bytes)?;
    pass(is_status(n), HistoryReason::BadEntry, total, bytes)?;
    Ok((n, rest))
}

/// What is told of the status.
fn detail_of(status: u8, total: usize, bytes: &[u8]) -> Result<(u32, &[u8]), HistoryFault>
    ensures { Gives (λ x. (x.0, x.1.now)) result (field_at total Detail 4 (accepts_detail status) bytes.now) }
{
    let (n, rest) = short_at(total, bytes)?;
    pass(is_detail(status, n), HistoryReason::BadEntry, total, bytes)?;
    Ok((n, rest))
}

/// The count of entries.
fn count_of(count: usize, total: usize, bytes: &[u8]) -> Result<(u32, &[u8]), HistoryFault>
    ensures { Gives (λ x. (x.0, x.1.now)) result (field_at total Count 4 (λ n. n == count) bytes.now) }
{
    let (n, rest) = short_at(total, bytes)?;
    pass(n as usize == count, HistoryReason::BadCount, total, bytes)?;
    Ok((n, rest))
}
