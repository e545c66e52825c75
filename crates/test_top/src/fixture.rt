//! What the tests hand to the command, and what is reported of it.

use crate::listening::{Answers, Habits, answers_of, listener};
use omp_model::{Cause, Entry, History, What};
use ompt_calls::Call;
use ompt_cli::{Command, End, ReadCommand, Report, Top, top};
use run_edges::{MemSink, MemSource, Memory, Script, Source};
use std::alloc::Global;
use std::process::Abort;
use std::sync::Wait;
use std::thread::Threads;
use tool_api::GuestTool;

/// The program that does nothing.
pub(crate) const PROGRAM: &[u8] = b"int main(void) { return 0; }\n";

/// A region of two.
pub(crate) const REGION_OF_TWO: &[u8] = b"int main(void) {
#pragma omp parallel num_threads(2)
{ }
return 0;
}
";

/// Words that list on two threads.
pub(crate) const LIST_ON_TWO: &[&str] = &["list", "--serial", "--threads", "2"];

/// What a command came to, and its sinks afterwards.
#[derive(Drop)]
pub(crate) struct Told {
    pub status: u8,
    pub end: End,
    pub ran: Option<Ran>,
    pub shown: Option<String>,
    pub read: Option<ReadCommand>,
    pub out: MemSink,
    pub err: MemSink,
}

/// What is reported of a run. In place of the guests it has what they answer.
#[derive(Drop)]
pub(crate) struct Ran {
    pub command: Command,
    pub cause: Cause,
    pub mask: u64,
    pub threads: u8,
    pub steps: u32,
    pub history: History,
    pub guests: Vec<Answers>,
}

impl Told {
    /// Whether what was asked for is done.
    pub fn is_done(&self) -> bool {
        matches!(self.end, End::Ended(Cause::Done))
    }

    /// Whether a trace was read to its end.
    pub fn has_read(&self) -> bool {
        matches!(self.end, End::Read)
    }
}

/// Hands the command these words, this text, an output with ample room, and no guests.
pub(crate) fn tell_text<R: AllocGlobal + Threads + Wait + Sync>(
    rt: &R,
    words: &[&str],
    text: &[u8],
) -> Result<Told, Memory> {
    let mut source = source_of(rt.alloc(), text)?;
    tell(rt, words, &mut source)
}

/// Hands the command these words, this source, an output with ample room, and no guests.
pub(crate) fn tell<R: AllocGlobal + Threads + Wait + Sync, S: Source>(
    rt: &R,
    words: &[&str],
    source: &mut S,
) -> Result<Told, Memory> {
    let out = ample(rt.alloc())?;
    hand(rt, words, source, out)
}

/// Hands the command these words, this source and this output, and no guests.
pub(crate) fn hand<R: AllocGlobal + Threads + Wait + Sync, S: Source>(
    rt: &R,
    words: &[&str],
    source: &mut S,
    out: MemSink,
) -> Result<Told, Memory> {
    hand_boxes(rt, words, source, out, Vec::new(rt.alloc()), &[])
}

/// Hands the command these words, this text, and a guest with these habits, which is asked for these calls.
pub(crate) fn tell_guest<R: AllocGlobal + Threads + Wait + Sync>(
    rt: &R,
    words: &[&str],
    text: &[u8],
    habits: Habits,
    asked: &[(u32, Call)],
) -> Result<Told, Memory> {
    tell_guests(rt, words, text, 1, habits, asked)
}

/// Hands the command these words, this text, and so many guests with these habits, which are asked for these calls.
pub(crate) fn tell_guests<R: AllocGlobal + Threads + Wait + Sync>(
    rt: &R,
    words: &[&str],
    text: &[u8],
    count: usize,
    habits: Habits,
    asked: &[(u32, Call)],
) -> Result<Told, Memory> {
    let mut boxes: Vec<Box<dyn GuestTool>> = Vec::new(rt.alloc());
    for _guest in 0..count {
        boxes.push(listener(rt.alloc(), habits)?)?;
    }
    tell_boxes(rt, words, text, boxes, asked)
}

/// Hands the command these words, this text, an output with ample room, and these boxes.
fn tell_boxes<R: AllocGlobal + Threads + Wait + Sync>(
    rt: &R,
    words: &[&str],
    text: &[u8],
    boxes: Vec<Box<dyn GuestTool>>,
    asked: &[(u32, Call)],
) -> Result<Told, Memory> {
    let out = ample(rt.alloc())?;
    let mut source = source_of(rt.alloc(), text)?;
    hand_boxes(rt, words, &mut source, out, boxes, asked)
}

/// Hands the command all that it takes, with ample room for its line. The boxes that come back are asked before this ends: a function that
/// gave away boxes from another crate's call would hide which ones they are.
fn hand_boxes<R: AllocGlobal + Threads + Wait + Sync, S: Source>(
    rt: &R,
    words: &[&str],
    source: &mut S,
    mut out: MemSink,
    boxes: Vec<Box<dyn GuestTool>>,
    asked: &[(u32, Call)],
) -> Result<Told, Memory> {
    let words = owned(rt.alloc(), words)?;
    let mut err = ample(rt.alloc())?;
    let top = top(rt, rt.alloc(), &words, source, &mut out, &mut err, boxes);
    told_of(rt.alloc(), top, out, err, asked)
}

/// What the command came to, with what its guests answer.
fn told_of(
    alloc: Global,
    top: Top,
    out: MemSink,
    err: MemSink,
    asked: &[(u32, Call)],
) -> Result<Told, Memory> {
    let Top {
        status,
        end,
        ran,
        shown,
        read,
    } = top;
    let ran = match ran {
        Some(report) => Some(ran_of(alloc, report, asked)?),
        None => None,
    };
    Ok(Told {
        status,
        end,
        ran,
        shown,
        read,
        out,
        err,
    })
}

/// The same words, owned.
pub(crate) fn owned(alloc: Global, words: &[&str]) -> Result<Vec<String>, Memory> {
    let mut owned = Vec::new(alloc);
    for word in words {
        owned.push(String::from_str(alloc, word)?)?;
    }
    Ok(owned)
}

/// The report, with what its guests answer.
fn ran_of(alloc: Global, report: Report, asked: &[(u32, Call)]) -> Result<Ran, Memory> {
    let mut report = report;
    let guests = answers_of_all(alloc, &mut report.guests, asked)?;
    Ok(Ran {
        command: report.command,
        cause: report.cause,
        mask: report.mask,
        threads: report.threads,
        steps: report.steps,
        history: report.history,
        guests,
    })
}

/// What each guest answers.
fn answers_of_all(
    alloc: Global,
    guests: &mut [Box<dyn GuestTool>],
    asked: &[(u32, Call)],
) -> Result<Vec<Answers>, Memory> {
    let mut answers = Vec::new(alloc);
    for guest in guests {
        answers.push(answers_of(alloc, guest, asked)?)?;
    }
    Ok(answers)
}

/// What ran.
pub(crate) fn ran_in<'a>(rt: &impl Abort, told: &'a Told) -> &'a Ran {
    match &told.ran {
        Some(ran) => ran,
        None => panic!(rt; "nothing ran"),
    }
}

/// These bytes as text.
pub(crate) fn text_of<'a>(rt: &impl Abort, bytes: &'a [u8]) -> &'a str {
    match str::from_utf8(bytes) {
        Ok(text) => text,
        Err(_) => panic!(rt; "no text"),
    }
}

/// The history has these entries at these positions.
pub(crate) fn has_entries(rt: &impl Abort, history: &History, expected: &[(usize, u8, What)]) {
    for &(position, thread, what) in expected {
        let found = history.as_slice().get(position);
        assert!(rt; found == Some(&Entry { thread, what }), "at {position}");
    }
}

/// A source of this text that never fails.
pub(crate) fn source_of(alloc: Global, text: &[u8]) -> Result<MemSource, Memory> {
    Ok(MemSource::new(text.to_vec(alloc)?, Vec::new(alloc)))
}

/// A sink that never fails, with room for all that is written here.
pub(crate) fn ample(alloc: Global) -> Result<MemSink, Memory> {
    MemSink::new(alloc, 4000, Vec::new(alloc))
}

/// A script whose first call fails.
pub(crate) fn failing(alloc: Global) -> Result<Vec<Script>, Memory> {
    Ok(Vec::from_array(alloc, [Script::Fail])?)
}
