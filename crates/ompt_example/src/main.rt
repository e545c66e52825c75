//! Two tools from start to end: the commands of `ompt`, where `run` is followed by the reports of both.
//!
//! [`Profiler`](profiler::Profiler) is the first tool, and [`TaskProfiler`](task_profiler::TaskProfiler) the second one. Each registers
//! callbacks of its own. A thread's guest is both in one, [`TwoTools`](gathered::TwoTools). What they hear is [`Gathered`] from all threads,
//! and `main` writes it behind what the program printed. With `--history`, and for the other commands, nothing is reported.
//!
//! Proved is that it is safe, that it ends unless it waits for a lock, and what `Profile::add_region` and `Profile::add_wait`
//! say; and that the guest of a thread stands for what `tool_both` says of two tools. That the reports have all that was heard, and that they
//! are as they should be, is only tested: by the run of `stdin`, which has to write `stdout`.
#![tactic(auto)]

mod gathered;
mod profile;
mod profiler;
mod task_profiler;
mod task_starts;

use gathered::Gathered;
use ompt_cli::{End, own_words, top};
use run_edges::{Sink, StdSink, StdSource, write_all};
use std::alloc::{AllocError, Global};
use std::process::ExitCode;
use std::sync::Wait;
use tool_api::GuestTool;

fn main(rt: HostRuntime) -> ExitCode {
    let alloc = rt.alloc();
    let mut err = StdSink::new(rt.stderr());
    let Ok(gathered) = Gathered::new(alloc) else {
        return End::Memory.exit(&mut err);
    };
    let Ok(pairs) = gathered.guests(alloc, rt) else {
        return End::Memory.exit(&mut err);
    };
    let mut guests: Vec<Box<dyn GuestTool>> = Vec::new(alloc);
    for pair in pairs {
        let Ok(guest) = Box::new(alloc, pair) else {
            return End::Memory.exit(&mut err);
        };
        let Ok(()) = guests.push(guest) else {
            return End::Memory.exit(&mut err);
        };
    }
    let Ok(words) = own_words(&rt) else {
        return End::Memory.exit(&mut err);
    };
    let mut source = StdSource::new(rt.stdin());
    let mut out = StdSink::new(rt.stdout());
    let top = top(&rt, alloc, &words, &mut source, &mut out, &mut err, guests);
    if top.has_printed() {
        if let Err(end) = report(&rt, alloc, &gathered, &mut out) {
            return end.exit(&mut err);
        }
    }
    ExitCode::from(top.status)
}

/// Writes the reports of both tools, the first one's first.
fn report<R: Wait, O: Sink>(
    rt: &R,
    alloc: Global,
    gathered: &Gathered,
    out: &mut O,
) -> Result<(), End> {
    let profile = gathered.profile.lock(rt).to_string(alloc);
    write_text(profile, out)?;
    let starts = gathered.starts.lock(rt).to_string(alloc);
    write_text(starts, out)
}

/// Writes this text, if there was memory for it.
fn write_text<O: Sink>(text: Result<String, AllocError>, out: &mut O) -> Result<(), End> {
    let text = text.map_err(|_| End::Memory)?;
    write_all(out, text.as_str().as_bytes()).map_err(|_| End::WriteFault)
}
