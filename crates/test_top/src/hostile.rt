//! Commands whose sink takes single bytes and then fails, or whose source gives single bytes and then fails, wherever that is.

use crate::fixture::*;
use run_edges::{MemSink, MemSource, Memory, Script};
use std::alloc::Global;
use std::process::Abort;
use std::sync::Wait;
use std::test::Fail;
use std::thread::Threads;

/// Words that record on one thread, and how many bytes a recording of the program that does nothing has.
const RECORD: &[&str] = &["record", "--serial", "--threads", "1"];

const RECORDED: usize = 182;

/// Words that list on one thread, and how many bytes the text of the program that does nothing has.
const LIST: &[&str] = &["list", "--serial", "--threads", "1"];

const TEXT: usize = 29;

/// A recording whose sink fails after so many single bytes has written these, and tells the fault. One whose sink takes all is whole.
#[test]
fn each_write_of_a_recording_may_fail(rt: HostRuntime) -> Result<(), Fail> {
    let whole = tell_text(&rt, RECORD, PROGRAM)?;
    assert!(rt; whole.out.bytes().len() == RECORDED);
    for count in 0..RECORDED {
        is_cut_off(&rt, &whole, count)?;
    }
    let told = recorded_into(&rt, RECORDED)?;
    assert!(rt; told.is_done() && told.status == 0);
    assert!(rt; told.out.bytes() == whole.out.bytes());
    Ok(())
}

/// A listing whose source fails after so many single bytes, or behind all of them, writes nothing, and tells the fault. One whose source comes to its
/// end is listed.
#[test]
fn each_read_may_fail(rt: HostRuntime) -> Result<(), Fail> {
    for count in 0..=TEXT {
        let told = listed_from(&rt, count)?;
        is_told(&rt, &told, 8, b"read fault\n", count);
        assert!(rt; told.out.bytes().is_empty(), "after {count} bytes");
    }
    let told = listed_from(&rt, TEXT + 1)?;
    assert!(rt; told.is_done() && told.status == 0);
    Ok(())
}

/// A recording into a sink that fails after so many single bytes is a front of the whole one.
fn is_cut_off<R: AllocGlobal + Threads + Wait + Sync + Abort>(
    rt: &R,
    whole: &Told,
    count: usize,
) -> Result<(), Memory> {
    let told = recorded_into(rt, count)?;
    is_told(rt, &told, 9, b"write fault\n", count);
    assert!(rt; told.out.bytes().len() == count, "after {count} bytes");
    assert!(rt;
        whole.out.bytes().starts_with(told.out.bytes()),
        "after {count} bytes"
    );
    Ok(())
}

/// The command ended with this status, and told this line.
fn is_told(rt: &impl Abort, told: &Told, status: u8, line: &[u8], count: usize) {
    assert!(rt; told.status == status, "after {count} bytes");
    assert!(rt; told.err.bytes() == line, "after {count} bytes");
}

/// What is recorded of the program that does nothing, into a sink that fails after so many single bytes.
fn recorded_into<R: AllocGlobal + Threads + Wait + Sync>(
    rt: &R,
    count: usize,
) -> Result<Told, Memory> {
    let out = MemSink::new(rt.alloc(), 4000, singly(rt.alloc(), count)?)?;
    let mut source = source_of(rt.alloc(), PROGRAM)?;
    hand(rt, RECORD, &mut source, out)
}

/// What is listed of the program that does nothing, from a source that fails after so many single bytes.
fn listed_from<R: AllocGlobal + Threads + Wait + Sync>(
    rt: &R,
    count: usize,
) -> Result<Told, Memory> {
    let script = singly(rt.alloc(), count)?;
    let mut source = MemSource::new(PROGRAM.to_vec(rt.alloc())?, script);
    tell(rt, LIST, &mut source)
}

/// A script that moves so many single bytes, and then fails.
fn singly(alloc: Global, count: usize) -> Result<Vec<Script>, Memory> {
    let mut script = Vec::new(alloc);
    for _byte in 0..count {
        script.push(Script::Most(1))?;
    }
    script.push(Script::Fail)?;
    Ok(script)
}
