//! The views of a trace, and how they end.
//!
//! | Row | What is written |
//! |---|---|
//! | `row names` | a line for each event, with names |
//! | `row chrome` | the Trace Event Format |
//! | `row svg 72` | the states of threads in so many columns |
//! | `row dot` | the task tree for Graphviz |
//! | `row waits` | the table of waits |
//!
//! | End | How it ended |
//! |---|---|
//! | `whole` | the input was read to its end, and the view was written |
//! | `trace refused 9 at 100` | the input is no trace |
//! | `breach 7 at 14` | it is one that isn't nested, of which there is no such view |

use run_edges::{MemSink, MemSource};
use sha2::{Digest, Sha256};
use std::alloc::{AllocError, Global};
use trace_view::{ItemStyle, Picture, Viewed, view_items, view_picture};

/// How many bytes a view has room for.
const ROOM: usize = 0x20_0000;

/// The longest text that isn't told by its digest.
const LONGEST: usize = 1500;

/// A view of a trace.
#[derive(Clone, Copy)]
enum View {
    /// Its items, each as a text.
    Items(ItemStyle),
    /// A picture of a trace that is nested.
    Picture(Picture),
}

/// How the view with this name of the trace with these bytes ends, and what is written.
pub(crate) fn came(alloc: Global, name: &str, bytes: &[u8]) -> Result<Vec<u8>, AllocError> {
    match view_of(name) {
        Some(view) => viewed(alloc, view, bytes),
        None => Vec::from_slice(alloc, b"no such view\n"),
    }
}

/// The view that is named so.
fn view_of(name: &str) -> Option<View> {
    match name {
        "names" => Some(View::Items(ItemStyle::Names)),
        "chrome" => Some(View::Items(ItemStyle::Chrome)),
        "dot" => Some(View::Picture(Picture::Tasks)),
        "waits" => Some(View::Picture(Picture::Waits)),
        _ => timeline_of(name),
    }
}

/// The picture of states with so many columns.
fn timeline_of(name: &str) -> Option<View> {
    let columns = name.strip_prefix("svg ")?;
    match columns.parse() {
        Ok(columns) => Some(View::Picture(Picture::Timeline { columns })),
        Err(_) => None,
    }
}

/// How this view of the trace with these bytes ends, and what is written.
fn viewed(alloc: Global, view: View, bytes: &[u8]) -> Result<Vec<u8>, AllocError> {
    let mut out = MemSink::new(alloc, ROOM, Vec::new(alloc))?;
    let end = write_view(alloc, view, bytes, &mut out)?;
    let mut came = end_line(alloc, end)?;
    add_text(alloc, out.bytes(), &mut came)?;
    Ok(came)
}

/// Writes this view of the trace with these bytes.
fn write_view(
    alloc: Global,
    view: View,
    bytes: &[u8],
    out: &mut MemSink,
) -> Result<Viewed, AllocError> {
    let mut source = MemSource::new(bytes.to_vec(alloc)?, Vec::new(alloc));
    Ok(match view {
        View::Items(style) => view_items(alloc, style, &mut source, out),
        View::Picture(picture) => view_picture(alloc, picture, &mut source, out),
    })
}

/// How a view ended, as a line.
fn end_line(alloc: Global, end: Viewed) -> Result<Vec<u8>, AllocError> {
    match end {
        Viewed::Whole => Vec::from_slice(alloc, b"whole\n"),
        Viewed::Refused(refusal) => Ok(format!(in alloc; "{refusal}\n")?.into_bytes()),
        Viewed::Broken(breach) => {
            Ok(format!(in alloc; "breach {} at {}\n", breach.rule, breach.seq)?.into_bytes())
        }
        Viewed::ReadFault | Viewed::WriteFault | Viewed::Memory => Err(AllocError),
    }
}

/// Adds this text, or the line with its digest where it is long.
fn add_text(alloc: Global, text: &[u8], came: &mut Vec<u8>) -> Result<(), AllocError> {
    if text.len() <= LONGEST {
        return came.extend_from_slice(text);
    }
    let digits = hex::encode(alloc, &Sha256::digest(text))?;
    let line = format!(in alloc; "sha256 {digits}\n")?;
    came.extend_from_slice(line.as_bytes())
}
