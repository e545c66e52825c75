//! What is reported of commands without guests.

use crate::fixture::*;
use omp_codes::PROFILE_MASK;
use omp_model::{Cause, Entry, What};
use ompt_cli::{Command, End, RunOutput};
use run_edges::{
    MemSink, MemSource, Memory, PureSource, ReadAllFault, WriteFault, read_all, write_all,
};
use std::alloc::Global;
use std::process::Abort;
use std::sync::Wait;
use std::test::Fail;
use std::thread::Threads;

const GO: Entry = Entry {
    thread: 0,
    what: What::Go,
};

const BACK: Entry = Entry {
    thread: 0,
    what: What::Back,
};

const HISTORY: [Entry; 8] = [GO, BACK, GO, BACK, GO, BACK, GO, BACK];

/// The empty program, in a source that can't fail: what is reported says how many threads were asked for.
#[test]
fn the_empty_program_has_eight_entries(rt: HostRuntime) -> Result<(), Fail> {
    for (number, threads) in [("1", 1), ("9", 9), ("16", 16)] {
        is_listed(&rt, number, threads)?;
    }
    Ok(())
}

/// The empty program is listed with so many threads.
fn is_listed<R: AllocGlobal + Threads + Wait + Sync + Abort>(
    rt: &R,
    number: &str,
    threads: u8,
) -> Result<(), Memory> {
    let bytes = PROGRAM.to_vec(rt.alloc())?;
    let mut source = PureSource::new(bytes);
    let told = tell(rt, &["list", "--serial", "--threads", number], &mut source)?;
    has_eight_entries(rt, &told, threads);
    Ok(())
}

/// The empty program was listed with so many threads.
fn has_eight_entries(rt: &impl Abort, told: &Told, threads: u8) {
    assert!(rt; told.is_done());
    let ran = ran_in(rt, told);
    assert!(rt; ran.command == Command::List);
    assert!(rt; ran.cause == Cause::Done);
    assert!(rt; ran.mask == PROFILE_MASK);
    assert!(rt; ran.threads == threads);
    assert!(rt; ran.history.as_slice() == HISTORY.as_slice());
}

/// A source of the empty program that fails at its first call.
fn failing_source(alloc: Global) -> Result<MemSource, Memory> {
    let bytes = PROGRAM.to_vec(alloc)?;
    Ok(MemSource::new(bytes, failing(alloc)?))
}

/// Whether the source fails at its first call.
fn still_fails(alloc: Global, source: &mut MemSource) -> bool {
    matches!(read_all(alloc, source, 100), Err(ReadAllFault::ReadFault))
}

/// A source and an output that fail at their first call make no difference, and still fail at their first call afterwards.
#[test]
fn wrong_words_touch_neither_source_nor_output(rt: HostRuntime) -> Result<(), Fail> {
    let mut source = failing_source(rt.alloc())?;
    refuses_words(&rt, &mut source)?;
    assert!(rt; still_fails(rt.alloc(), &mut source));
    Ok(())
}

/// Words are refused over an output that fails at its first call, and still does so afterwards.
fn refuses_words<R: AllocGlobal + Threads + Wait + Sync + Abort>(
    rt: &R,
    source: &mut MemSource,
) -> Result<(), Memory> {
    let out = failing_sink(rt.alloc())?;
    let mut told = hand(rt, &["run", "--threads", "0"], source, out)?;
    were_refused(rt, &mut told);
    Ok(())
}

/// An output that fails at its first call.
fn failing_sink(alloc: Global) -> Result<MemSink, Memory> {
    MemSink::new(alloc, 10, failing(alloc)?)
}

/// The words were refused, and the output still fails at its first call.
fn were_refused(rt: &impl Abort, told: &mut Told) {
    assert!(rt; matches!(told.end, End::Usage));
    assert!(rt; told.ran.is_none());
    assert!(rt; write_all(&mut told.out, b"x") == Err(WriteFault));
}

/// A source that fails at its first call makes no difference, and still fails at its first call afterwards. The output has the text
/// that is reported.
#[test]
fn help_touches_no_source(rt: HostRuntime) -> Result<(), Fail> {
    let mut source = failing_source(rt.alloc())?;
    shows_help(&rt, &mut source)?;
    assert!(rt; still_fails(rt.alloc(), &mut source));
    Ok(())
}

/// Help is shown.
fn shows_help<R: AllocGlobal + Threads + Wait + Sync + Abort>(
    rt: &R,
    source: &mut MemSource,
) -> Result<(), Memory> {
    let told = tell(rt, &["run", "--help"], source)?;
    has_shown(rt, &told);
    Ok(())
}

/// A text was shown, and nothing ran.
fn has_shown(rt: &impl Abort, told: &Told) {
    assert!(rt; matches!(told.end, End::Shown));
    assert!(rt; told.status == 0);
    assert!(rt; told.ran.is_none());
    assert!(rt; has_its_text(told));
}

/// Whether a text is reported, and the output has it.
fn has_its_text(told: &Told) -> bool {
    match &told.shown {
        Some(text) => told.out.bytes() == text.as_bytes(),
        None => false,
    }
}

/// Words of a run with other settings than the defaults.
const RUN_WITH_SETTINGS: &[&str] = &["run", "--steps", "9", "--serial", "--threads", "3"];

/// What is reported of a run has the command, the threads and the steps of its words.
#[test]
fn a_report_has_the_settings_of_its_words(rt: HostRuntime) -> Result<(), Fail> {
    let told = tell_text(&rt, RUN_WITH_SETTINGS, PROGRAM)?;
    has_settings(&rt, ran_in(&rt, &told));
    Ok(())
}

/// What ran has the settings of the words.
fn has_settings(rt: &impl Abort, ran: &Ran) {
    assert!(rt; ran.command == Command::Run(RunOutput::Printed));
    assert!(rt; ran.threads == 3);
    assert!(rt; ran.steps == 9);
}

const TWO_REGIONS_OF_TWO: &[u8] = b"int main(void) {
#pragma omp parallel num_threads(2)
{ }
#pragma omp parallel num_threads(2)
{ }
return 0;
}
";

/// The second region has the worker of the first one.
#[test]
fn two_regions_of_two_keep_their_worker(rt: HostRuntime) -> Result<(), Fail> {
    let told = tell_text(&rt, LIST_ON_TWO, TWO_REGIONS_OF_TWO)?;
    let ran = ran_in(&rt, &told);
    assert!(rt; ran.history.as_slice().len() == 69);
    Ok(())
}
