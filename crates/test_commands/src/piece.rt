//! Bytes as a line of a table writes them.
//!
//! Behind its sign a line has a mode, and behind a blank what is written in it:
//!
//! | Mode | What the line gives |
//! |---|---|
//! | none | the text and a newline |
//! | `+` | the text alone |
//! | `*12` | the text so many times, without newlines |
//! | `=12` | the text and a newline, so many times |
//! | `#12` | the text so many times, with 1, 2, and so on behind it |
//! | `x` | the bytes of these hexadecimal digits, which may have blanks between the bytes |

use hex::FromHexError;
use std::alloc::{AllocError, Global};
use test_rows::RowFault;

/// Adds the bytes of this mode and text.
pub(crate) fn add_piece(
    bytes: &mut Vec<u8>,
    alloc: Global,
    mode: &str,
    text: &str,
) -> Result<(), RowFault> {
    match mode {
        "" => add_lines(bytes, text, 1),
        "+" => add_times(bytes, text, 1),
        "x" => add_digits(bytes, alloc, text),
        _ => add_repeated(bytes, alloc, mode, text),
    }
}

/// Adds the text, or the line, as often as the mode says.
fn add_repeated(
    bytes: &mut Vec<u8>,
    alloc: Global,
    mode: &str,
    text: &str,
) -> Result<(), RowFault> {
    if let Some(times) = mode.strip_prefix('=') {
        return add_lines(bytes, text, times.parse()?);
    }
    if let Some(times) = mode.strip_prefix('#') {
        return add_numbered(bytes, alloc, text, times.parse()?);
    }
    match mode.strip_prefix('*') {
        Some(times) => add_times(bytes, text, times.parse()?),
        None => Err(RowFault::NoSuchLine),
    }
}

/// Adds the text and a newline, so many times.
fn add_lines(bytes: &mut Vec<u8>, text: &str, times: u32) -> Result<(), RowFault> {
    for _time in 0..times {
        bytes.extend_from_slice(text.as_bytes())?;
        bytes.push(b'\n')?;
    }
    Ok(())
}

/// Adds the text so many times.
fn add_times(bytes: &mut Vec<u8>, text: &str, times: u32) -> Result<(), RowFault> {
    for _time in 0..times {
        bytes.extend_from_slice(text.as_bytes())?;
    }
    Ok(())
}

/// Adds the text so many times, each time with its number behind it, counted from 1.
fn add_numbered(
    bytes: &mut Vec<u8>,
    alloc: Global,
    text: &str,
    times: u32,
) -> Result<(), RowFault> {
    for time in 0..times {
        let number = time + 1;
        bytes.extend_from_slice(format!(in alloc; "{text}{number}")?.as_bytes())?;
    }
    Ok(())
}

/// Adds the bytes of hexadecimal digits.
fn add_digits(bytes: &mut Vec<u8>, alloc: Global, text: &str) -> Result<(), RowFault> {
    for digits in text.split(' ') {
        bytes.extend_from_slice(&hex::decode(alloc, digits).map_err(fault_of_digits)?)?;
    }
    Ok(())
}

/// Why these digits can't be read.
fn fault_of_digits(error: FromHexError) -> RowFault {
    match error {
        FromHexError::OutOfMemory => RowFault::Memory(AllocError),
        _ => RowFault::NoBytes,
    }
}
