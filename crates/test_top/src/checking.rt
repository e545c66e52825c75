//! How much a checker keeps of a long trace.

use crate::fixture::*;
use omp_codes::PROFILE_MASK;
use run_edges::{MemSink, Memory};
use std::alloc::AllocError;
use std::process::Abort;
use std::sync::Wait;
use std::test::Fail;
use std::thread::Threads;
use tool_report::generated_text;
use trace_check::Checker;
use trace_format::{EndMark, Header, Item, RECORDED, Reader, VERSION};

/// Words that record on four threads.
const RECORD_ON_FOUR: &[&str] = &["record", "--serial", "--threads", "4"];

/// The header and the end mark of what is recorded of the program with 400 blocks, and room for its bytes.
const HEADER: Header = Header {
    version: VERSION,
    threads: 4,
    origin: RECORDED,
    mask: PROFILE_MASK,
};

const END: EndMark = EndMark {
    status: 0,
    detail: 0,
    count: 18_610,
};

const ROOM: usize = 2_000_000;

/// After all events of a long trace a checker keeps 20 entries at most.
#[test]
fn little_is_kept_of_a_long_trace(rt: HostRuntime) -> Result<(), Fail> {
    let told = long_trace(&rt)?;
    let mut checker = Checker::new(rt.alloc(), HEADER);
    step_all(&rt, &mut checker, told.out.bytes())?;
    assert!(rt; 4 <= checker.kept());
    assert!(rt; checker.kept() <= 20);
    assert!(rt; checker.verdict(&END) == Ok(()));
    Ok(())
}

/// What is recorded of the program with 400 blocks.
fn long_trace<R: AllocGlobal + Threads + Wait + Sync>(rt: &R) -> Result<Told, Memory> {
    let out = MemSink::new(rt.alloc(), ROOM, Vec::new(rt.alloc()))?;
    let text = generated_text(rt.alloc(), 400)?;
    let mut source = source_of(rt.alloc(), &text)?;
    hand(rt, RECORD_ON_FOUR, &mut source, out)
}

/// The checker is told of all events of these bytes, which are a trace with the header and the end mark.
fn step_all(rt: &impl Abort, checker: &mut Checker, bytes: &[u8]) -> Result<(), AllocError> {
    let mut reader = Reader::new();
    for byte in bytes {
        match reader.feed(&[*byte]) {
            Ok(taken) => step(rt, checker, &taken.item)?,
            Err(_) => panic!(rt; "refused"),
        }
    }
    assert!(rt; reader.end() == Ok(()));
    Ok(())
}

/// The checker is told of an event. Another item is the header or the end mark.
fn step(rt: &impl Abort, checker: &mut Checker, item: &Item) -> Result<(), AllocError> {
    match item {
        Item::More => {}
        Item::Header(header) => assert!(rt; *header == HEADER),
        Item::Event(event) => checker.step(event)?,
        Item::End(end) => assert!(rt; *end == END),
    }
    Ok(())
}
