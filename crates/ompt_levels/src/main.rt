//! What a tool is answered, made visible: the commands of `ompt`, where `run` is followed by a line for each call of a guest.
//!
//! A line has the position of the event in the history, the thread, and what the inquiries are answered at the call:
//!
//! ```text
//! SEQ THREAD STATE WAIT task FLAGS ID:VALUE EXIT/ENTER REGION:VALUE INDEX .. region ID:VALUE TEAM ..
//! ```
//!
//! that is the thread's state and wait identifier, then each level of tasks, and then each level of regions, the innermost first. All
//! numbers are decimal, and one space is between. The lines are in the order of the history. With `--history`, and for the other commands,
//! none are written.
//!
//! With the further word `--store` the guests store the position of an event too: at the begin of a parallel region into the word of the
//! region, where a task is created into the word of the task, and at the begin of an implicit task into the task's own. So later lines show
//! what was stored.
//!
//! Proved is that it is safe, that it ends unless it waits, and what `line_of` says: a line is that of `specs/LevelLine.antt`. That all
//! lines are written, and in their order, is only tested: by the run of `stdin`, which has to write `stdout`, and by the test.
#![tactic(auto)]

mod inquirer;
mod level_line;
mod lines;
mod storing;
#[cfg(test)]
mod tests;

use inquirer::Inquirer;
use lines::Lines;
use ompt_cli::{End, own_words, top};
use run_edges::{Sink, StdSink, StdSource, write_all};
use std::alloc::Global;
use std::process::ExitCode;
use std::sync::{Arc, Mutex};
use storing::Storing;
use tool_api::GuestTool;

fn main(rt: HostRuntime) -> ExitCode {
    let alloc = rt.alloc();
    let mut err = StdSink::new(rt.stderr());
    let Ok(mut words) = own_words(&rt) else {
        return End::Memory.exit(&mut err);
    };
    let storing = Storing::take(&mut words);
    let Ok(lines) = Arc::new(alloc, Mutex::new(Lines::new(alloc))) else {
        return End::Memory.exit(&mut err);
    };
    // A guest for each thread that there may be.
    let mut guests: Vec<Box<dyn GuestTool>> = Vec::new(alloc);
    for _thread in 0..16 {
        let Ok(shared) = Arc::try_clone(&lines) else {
            return End::Memory.exit(&mut err);
        };
        let inquirer = Inquirer::new(rt, alloc, shared, storing);
        let Ok(guest) = Box::new(alloc, inquirer) else {
            return End::Memory.exit(&mut err);
        };
        let Ok(()) = guests.push(guest) else {
            return End::Memory.exit(&mut err);
        };
    }
    let mut source = StdSource::new(rt.stdin());
    let mut out = StdSink::new(rt.stdout());
    let top = top(&rt, alloc, &words, &mut source, &mut out, &mut err, guests);
    if top.has_printed() {
        if let Err(end) = write_lines(alloc, &lines.lock(&rt), &mut out) {
            return end.exit(&mut err);
        }
    }
    ExitCode::from(top.status)
}

/// Writes all lines.
fn write_lines<O: Sink>(alloc: Global, lines: &Lines, out: &mut O) -> Result<(), End> {
    let text = lines.text(alloc).map_err(|_| End::Memory)?;
    write_all(out, text.as_slice()).map_err(|_| End::WriteFault)
}
