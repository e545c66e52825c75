//! Places as they are written in a table: a line, a colon and a column.

use c_tokens::Spot;
use std::alloc::AllocError;

/// The place that is written so.
pub(crate) fn spot_of(written: &str) -> Option<Spot> {
    let (line, column) = written.split_once(':')?;
    let line = line.parse().ok()?;
    let column = column.parse().ok()?;
    Some(Spot { line, column })
}

/// Writes a place.
pub(crate) fn write_spot(told: &mut String, spot: Spot) -> Result<(), AllocError> {
    let Spot { line, column } = spot;
    write!(told, "{line}:{column}")
}

/// What stands before a sign, or all where it doesn't stand.
pub(crate) fn before(item: &str, sign: char) -> &str {
    match item.split_once(sign) {
        Some((front, _)) => front,
        None => item,
    }
}
