//! The Trace Event Format, read back by `serde_json`.

use crate::fixture::trace;
use run_edges::{MemSink, MemSource, write_all};
use serde_json::Value;
use std::alloc::{AllocError, Global};
use std::test::Fail;
use trace_format::{Trace, write_trace};
use trace_view::{ItemStyle, Viewed, view_items};

/// The most bytes that are written.
const ROOM: usize = 4096;

/// A mark: its phase, its position and its name.
type Mark = (&'static str, Option<u64>, &'static str);

/// The marks of the trace, written out by hand.
const MARKS: &[Mark] = &[
    ("M", None, "process_name"),
    ("M", Some(0), "thread_name"),
    ("i", Some(2), "task_create 2"),
    ("s", Some(2), "task"),
    ("B", Some(4), "task 2"),
    ("f", Some(4), "task"),
    ("b", Some(6), "wait for critical 3"),
    ("e", Some(8), "wait for critical 3"),
    ("b", Some(8), "critical 3"),
    ("e", Some(10), "critical 3"),
    ("E", Some(12), "task 2"),
    ("i", Some(14), "thread_end"),
    ("M", None, "process_labels"),
];

#[test]
fn is_an_array_of_marks(rt: HostRuntime) -> Result<(), Fail> {
    let out = written(rt.alloc())?;
    let read = Value::from_str(rt.alloc(), std::str::from_utf8(out.bytes())?)?;
    let marks = elements(&read);
    assert_eq!(rt; marks.len(), MARKS.len());
    for (value, mark) in marks.iter().zip(MARKS) {
        assert!(rt; is_mark(value, mark), "{} {}", mark.0, mark.2);
    }
    Ok(())
}

/// The elements of an array, and none of anything else.
fn elements(value: &Value) -> &[Value] {
    match value.as_array() {
        Some(array) => array.as_slice(),
        None => &[],
    }
}

/// The trace in the Trace Event Format.
fn written(alloc: Global) -> Result<MemSink, AllocError> {
    let mut sink = MemSink::new(alloc, ROOM, Vec::new(alloc))?;
    let mut out = MemSink::new(alloc, ROOM, Vec::new(alloc))?;
    if write_trace(&mut sink, &trace(alloc)?).is_ok() {
        let mut source = MemSource::new(sink.bytes().to_vec(alloc)?, Vec::new(alloc));
        view_items(alloc, ItemStyle::Chrome, &mut source, &mut out);
    }
    Ok(out)
}

/// Whether this is that mark.
fn is_mark(value: &Value, (phase, position, name): &Mark) -> bool {
    text_of(value, "ph") == Some(*phase)
        && value.get("ts").and_then(Value::as_u64) == *position
        && text_of(value, "name") == Some(*name)
}

/// The text of a member.
fn text_of<'a>(value: &'a Value, member: &str) -> Option<&'a str> {
    value.get(member).and_then(Value::as_str)
}
