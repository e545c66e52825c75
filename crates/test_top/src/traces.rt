//! What is reported of commands that record, show, migrate and check traces. What they write is told by rows of `test_commands`, but for traces
//! that were recorded by threads.

use crate::fixture::*;
use ompt_cli::{Command, ReadCommand};
use run_edges::Memory;
use std::process::Abort;
use std::sync::Wait;
use std::test::Fail;
use std::thread::Threads;

/// Words that record on one thread.
const RECORD: &[&str] = &["record", "--serial", "--threads", "1"];

/// Words that read a trace, with their commands.
const READINGS: &[(&str, ReadCommand)] = &[
    ("show", ReadCommand::Show),
    ("migrate", ReadCommand::Migrate),
    ("check", ReadCommand::Check),
];

/// What is recorded of the program that does nothing can be shown, migrated and checked. The report of a recording is that of a run; where a trace was
/// read there is none.
#[test]
fn a_recorded_trace_is_read(rt: HostRuntime) -> Result<(), Fail> {
    let recorded = tell_text(&rt, RECORD, PROGRAM)?;
    is_recorded(&rt, &recorded);
    is_read_by_all(&rt, recorded.out.bytes())?;
    Ok(())
}

/// The command recorded its run, and read no trace.
fn is_recorded(rt: &impl Abort, told: &Told) {
    assert!(rt; told.is_done());
    assert!(rt; told.read.is_none());
    assert!(rt; ran_in(rt, told).command == Command::Record);
}

/// The trace in these bytes is read by each command that reads one.
fn is_read_by_all<R: AllocGlobal + Threads + Wait + Sync + Abort>(
    rt: &R,
    bytes: &[u8],
) -> Result<(), Memory> {
    for (word, command) in READINGS {
        is_read(rt, bytes, word, *command)?;
    }
    Ok(())
}

/// The trace in these bytes is read where this word asks for it.
fn is_read<R: AllocGlobal + Threads + Wait + Sync + Abort>(
    rt: &R,
    bytes: &[u8],
    word: &str,
    command: ReadCommand,
) -> Result<(), Memory> {
    let told = tell_text(rt, &[word], bytes)?;
    assert!(rt; was_read_for(&told, command), "{word}");
    Ok(())
}

/// Whether a trace was read for this command, and nothing ran.
fn was_read_for(told: &Told, command: ReadCommand) -> bool {
    told.has_read() && told.status == 0 && told.read == Some(command) && told.ran.is_none()
}

/// What threads record is a trace that is nested, with a line for each event of a region of two.
#[test]
fn what_threads_record_is_shown(rt: HostRuntime) -> Result<(), Fail> {
    let recorded = tell_text(&rt, &["record", "--threads", "2"], REGION_OF_TWO)?;
    assert!(rt; recorded.status == 0);
    is_read(&rt, recorded.out.bytes(), "check", ReadCommand::Check)?;
    is_shown(&rt, recorded.out.bytes())?;
    Ok(())
}

/// The trace in these bytes is shown with a line for each event of a region of two.
fn is_shown<R: AllocGlobal + Threads + Wait + Sync + Abort>(
    rt: &R,
    bytes: &[u8],
) -> Result<(), Memory> {
    let shown = tell_text(rt, &["show"], bytes)?;
    has_its_lines(rt, &shown);
    Ok(())
}

/// There are twenty lines, and one for the end.
fn has_its_lines(rt: &impl Abort, shown: &Told) {
    assert!(rt; shown.status == 0);
    let text = text_of(rt, shown.out.bytes());
    assert!(rt; text.lines().count() == 21);
    assert!(rt; text.ends_with("\nend 0 0 20\n"));
}
