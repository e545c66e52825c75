//! What is written of a trace, and which can be.

use crate::smallest::{BYTES, END, ENDS_OF_ITEMS, HEADER, LENGTH, smallest};
use ompt_calls::Call;
use run_edges::{MemSink, Script, WriteFault};
use std::alloc::{AllocError, Global};
use std::test::Fail;
use trace_format::{EndMark, Header, Trace, valid, write_trace};

#[test]
fn writes_the_bytes(rt: HostRuntime) -> Result<(), Fail> {
    let trace = smallest(rt.alloc())?;
    assert!(rt; valid(&trace));
    let is_as_told = writes(rt.alloc(), &trace, Vec::new(rt.alloc()), Ok(()), BYTES)?;
    assert!(rt; is_as_told);
    Ok(())
}

/// Whether writing the trace under a script comes to this, and the sink holds these bytes then.
fn writes(
    alloc: Global,
    trace: &Trace,
    script: Vec<Script>,
    want: Result<(), WriteFault>,
    held: &[u8],
) -> Result<bool, AllocError> {
    let mut sink = MemSink::new(alloc, LENGTH, script)?;
    let written = write_trace(&mut sink, trace);
    Ok(written == want && sink.bytes() == held)
}

#[test]
fn writes_each_item_as_one_piece(rt: HostRuntime) -> Result<(), Fail> {
    let trace = smallest(rt.alloc())?;
    let mut pieces = 0_usize;
    for end in ENDS_OF_ITEMS {
        pieces = pieces.saturating_add(1);
        let is_as_told = writes_pieces(rt.alloc(), &trace, pieces, *end)?;
        assert!(rt; is_as_told, "{pieces} pieces");
    }
    Ok(())
}

/// Whether a sink that takes so many pieces, and then fails, holds so many bytes.
fn writes_pieces(
    alloc: Global,
    trace: &Trace,
    pieces: usize,
    end: usize,
) -> Result<bool, AllocError> {
    let want = if end == LENGTH {
        Ok(())
    } else {
        Err(WriteFault)
    };
    let held = BYTES.get(..end).unwrap_or(&[]);
    writes(alloc, trace, script_of(alloc, pieces)?, want, held)
}

/// The script of a sink that takes so many pieces, and then fails.
fn script_of(alloc: Global, pieces: usize) -> Result<Vec<Script>, AllocError> {
    let mut script = Vec::new(alloc);
    for _piece in 0..pieces {
        script.push(Script::Most(200))?;
    }
    script.push(Script::Fail)?;
    Ok(script)
}

/// Headers with which there is no trace of these events.
const HEADERS: &[Header] = &[
    Header {
        version: 3,
        ..HEADER
    },
    Header {
        version: 1,
        ..HEADER
    },
    Header {
        threads: 0,
        ..HEADER
    },
    Header {
        threads: 17,
        ..HEADER
    },
    Header {
        origin: 1,
        ..HEADER
    },
    Header {
        mask: 0x1_0FB3_00FC,
        ..HEADER
    },
    Header {
        mask: 0x1_0FB3_01FE,
        ..HEADER
    },
];

/// End marks of which there is no trace of these events.
const ENDS: &[EndMark] = &[
    EndMark { status: 2, ..END },
    EndMark { detail: 1, ..END },
    EndMark { count: 3, ..END },
];

#[test]
fn tells_what_is_no_trace(rt: HostRuntime) -> Result<(), Fail> {
    let mut trace = smallest(rt.alloc())?;
    for (row, header) in HEADERS.iter().enumerate() {
        trace.header = *header;
        assert!(rt; !valid(&trace), "header {row}");
    }
    trace.header = HEADER;
    for (row, end) in ENDS.iter().enumerate() {
        trace.end = *end;
        assert!(rt; !valid(&trace), "end mark {row}");
    }
    Ok(())
}

#[test]
fn tells_which_events_cant_be(rt: HostRuntime) -> Result<(), Fail> {
    let mut trace = smallest(rt.alloc())?;
    stand_still(&mut trace);
    assert!(rt; !valid(&trace));
    let mut trace = smallest(rt.alloc())?;
    begin_otherwise(&mut trace);
    assert!(rt; !valid(&trace));
    Ok(())
}

/// All events have the same position.
fn stand_still(trace: &mut Trace) {
    for event in trace.events.0.iter_mut() {
        event.seq = 6;
    }
}

/// The thread is of another kind.
fn begin_otherwise(trace: &mut Trace) {
    for event in trace.events.0.iter_mut() {
        if let Call::ThreadBegin { kind, .. } = &mut event.call {
            *kind = 3;
        }
    }
}
