//! What a row hands to the command, and what the command came to.

use ompt_cli::{Report, top};
use run_edges::{MemSink, MemSource, Script};
use std::alloc::{AllocError, Global};
use std::sync::Wait;
use std::thread::Threads;
use test_rows::RowFault;

/// How many bytes an output has room for.
const ROOM: usize = 0x20_0000;

/// A text, and what the reads of it obey, the writes of the output, and those of standard error.
#[derive(Drop)]
pub(crate) struct Given {
    pub text: Vec<u8>,
    pub reads: Vec<Script>,
    pub out_writes: Vec<Script>,
    pub err_writes: Vec<Script>,
}

/// What a command came to.
#[derive(Drop)]
pub(crate) struct Came {
    pub status: u8,
    /// How many entries the history of the run has; `None` where nothing ran.
    pub entries: Option<usize>,
    pub out: MemSink,
    pub err: MemSink,
}

impl Given {
    /// An empty text, of which each read gives what fits, and outputs that take all.
    pub fn new(alloc: Global) -> Given {
        Given {
            text: Vec::new(alloc),
            reads: Vec::new(alloc),
            out_writes: Vec::new(alloc),
            err_writes: Vec::new(alloc),
        }
    }

    /// Hands the command these words and the text.
    pub fn come<R: Threads + Wait + Sync>(
        self,
        rt: &R,
        alloc: Global,
        words: &[String],
    ) -> Result<Came, AllocError> {
        let Given {
            text,
            reads,
            out_writes,
            err_writes,
        } = self;
        let mut source = MemSource::new(text, reads);
        let mut out = MemSink::new(alloc, ROOM, out_writes)?;
        let mut err = MemSink::new(alloc, ROOM, err_writes)?;
        let (status, entries) = ran(rt, alloc, words, &mut source, &mut out, &mut err);
        Ok(Came {
            status,
            entries,
            out,
            err,
        })
    }
}

/// Hands the command words, a text and outputs. Gives the status, and how many entries the history of the run has.
fn ran<R: Threads + Wait + Sync>(
    rt: &R,
    alloc: Global,
    words: &[String],
    source: &mut MemSource,
    out: &mut MemSink,
    err: &mut MemSink,
) -> (u8, Option<usize>) {
    let top = top(rt, alloc, words, source, out, err, Vec::new(alloc));
    (top.status, entries_of(&top.ran))
}

/// How many entries the history of a run has, if something ran.
fn entries_of(ran: &Option<Report>) -> Option<usize> {
    match ran {
        Some(report) => Some(report.history.as_slice().len()),
        None => None,
    }
}

/// Adds the calls of `COUNT MOST`: so many that move at most so many bytes each, and one that fails.
pub(crate) fn add_calls(script: &mut Vec<Script>, text: &str) -> Result<(), RowFault> {
    let (count, most) = text.split_once(' ').ok_or(RowFault::NoNumber)?;
    let most = Script::Most(most.parse()?);
    for _call in 0..count.parse::<u32>()? {
        script.push(most)?;
    }
    script.push(Script::Fail)?;
    Ok(())
}
