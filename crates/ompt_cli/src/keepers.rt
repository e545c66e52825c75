//! The parts that keep what they are told, and what a command makes of that.

ghost use Rattle.std.specs.Prelude.{ℕ, ◌≡◌, ◌↔◌, IfOk, List, [], length, replicate, true};
ghost use Rattle.std.specs.Thread.{IsSync};
ghost use Rattle.ompt_cli.specs.Names.{Record, EventRecord, AreKept, KeeperFor};
ghost use Rattle.ompt_words.specs.declared.settings.Command.{Command as SeenCommand};
ghost use Rattle.ompt_cli.specs.{Commands.columns_in, Reports.RunsJob};

use crate::job::Job;
use crate::observing::{Gave, run_alone, run_by_threads};
use crate::writing::Lines;
use ompt_words::Command;
use std::alloc::{AllocError, Global};
use std::mem;
use std::sync::Wait;
use std::thread::Threads;
use tool_api::ToolPart;
use tool_report::{
    Profile, Recorder, Timeline, generated_text, lines_text, merge, profile_text, summary_text,
    timeline_text,
};

/// A part that keeps something of the events that it is told. Each kind says what it keeps, and what a command writes of that.
pub(crate) trait Keeper: ToolPart {
    /// What it keeps of these events.
    ghost keep: { List EventRecord → Self };

    /// What a command makes of these events and of what the program printed.
    ghost text_of: { SeenCommand → List EventRecord → List ℕ → List ℕ };

    /// A part that was told nothing.
    fn fresh(alloc: Global) -> Self
        ensures { result ≡ keep [] };

    /// What the command makes of what these parts keep and of what the program printed.
    fn text(alloc: Global, command: Command, parts: &[Self], printed: &[u8]) -> Lines
        ensures { IfOk result (λ text. (events : List EventRecord) → AreKept keep events parts.now →
            text.items ≡ text_of command events printed.now) };

    /// Runs the job, which is serial, with the parts of this list, which it takes out of it. Parts may be sent to
    /// threads, and nothing says of a type parameter of a method that it may be sent. So each kind makes its own runs.
    fn run_alone(job: Job, parts: &mut Vec<Self>) -> Gave<Self>
        requires serial { job.settings.serial ≡ true }
        requires parts { length parts.old.items ≡ job.settings.threads }
        ensures { IfOk result (RunsJob Self.stands_for Self.same job parts.old.items) };

    /// Does what [`Keeper::run_alone`] does for each job, by threads where it isn't serial.
    fn on_threads<R: Threads + Wait + Sync>(rt: &R, job: Job, parts: &mut Vec<Self>) -> Gave<Self>
        requires sync { IsSync R.row }
        requires parts { length parts.old.items ≡ job.settings.threads }
        ensures { IfOk result (RunsJob Self.stands_for Self.same job parts.old.items) };

    ghost stands: { (kept : Self) (h : Record) → KeeperFor keep kept h ↔ Self.stands_for kept h };
}

impl Keeper for Recorder {
    ghost use Rattle.ompt_cli.specs.Commands.{text_of_events};

    ghost keep = { λ events. events };

    ghost text_of = { text_of_events };

    fn fresh(alloc: Global) -> Recorder {
        Recorder::new(alloc)
    }

    fn text(alloc: Global, command: Command, parts: &[Recorder], printed: &[u8]) -> Lines {
        match command {
            Command::Generate(blocks) => {
                let program = generated_text(alloc, blocks)?;
                let events = merge(alloc, parts)?;
                summary_text(alloc, &program, &events, printed)
            }
            _ => lines_text(alloc, parts),
        }
    }

    fn run_alone(job: Job, parts: &mut Vec<Self>) -> Gave<Self> {
        let list = mem::replace(parts, Vec::new(job.alloc));
        run_alone(job, list)
    }

    fn on_threads<R: Threads + Wait + Sync>(rt: &R, job: Job, parts: &mut Vec<Self>) -> Gave<Self> {
        let list = mem::replace(parts, Vec::new(job.alloc));
        run_by_threads(rt, job, list)
    }

    ghost stands = { λ kept h. (λ for. for, λ for. for) };
}

impl Keeper for Profile {
    ghost use Rattle.tool_report.specs.Counts.{counts_of};
    ghost use Rattle.tool_report.specs.Profile.{profile_of};

    ghost keep = { counts_of };

    ghost text_of = { λ command events printed. profile_of events };

    fn fresh(_alloc: Global) -> Profile {
        Profile::new()
    }

    fn text(alloc: Global, _command: Command, parts: &[Profile], _printed: &[u8]) -> Lines {
        profile_text(alloc, parts)
    }

    fn run_alone(job: Job, parts: &mut Vec<Self>) -> Gave<Self> {
        let list = mem::replace(parts, Vec::new(job.alloc));
        run_alone(job, list)
    }

    fn on_threads<R: Threads + Wait + Sync>(rt: &R, job: Job, parts: &mut Vec<Self>) -> Gave<Self> {
        let list = mem::replace(parts, Vec::new(job.alloc));
        run_by_threads(rt, job, list)
    }

    ghost stands = { λ kept h. (λ for. for, λ for. for) };
}

impl Keeper for Timeline {
    ghost use Rattle.tool_report.specs.Moments.{moments_of};
    ghost use Rattle.tool_report.specs.Timeline.{timeline_of};
    ghost use Rattle.ompt_cli.specs.Commands.{columns_in};

    ghost keep = { moments_of };

    ghost text_of = { λ command events printed. timeline_of (columns_in command) events };

    fn fresh(alloc: Global) -> Timeline {
        Timeline::new(alloc)
    }

    fn text(alloc: Global, command: Command, parts: &[Timeline], _printed: &[u8]) -> Lines {
        match command {
            Command::Timeline(columns) => timeline_text(alloc, parts, columns),
            _ => timeline_text(alloc, parts, 0),
        }
    }

    fn run_alone(job: Job, parts: &mut Vec<Self>) -> Gave<Self> {
        let list = mem::replace(parts, Vec::new(job.alloc));
        run_alone(job, list)
    }

    fn on_threads<R: Threads + Wait + Sync>(rt: &R, job: Job, parts: &mut Vec<Self>) -> Gave<Self> {
        let list = mem::replace(parts, Vec::new(job.alloc));
        run_by_threads(rt, job, list)
    }

    ghost stands = { λ kept h. (λ for. for, λ for. for) };
}

/// A part for each of so many threads, which was told nothing.
pub(crate) fn keepers<P: Keeper>(alloc: Global, threads: u8) -> Result<Vec<P>, AllocError>
    ensures { IfOk result (λ parts. parts.items ≡ replicate threads (P.keep [])) }
{
    let mut parts = Vec::new(alloc);
    for _thread in 0..threads {
        parts.push(P::fresh(alloc))?;
    }
    Ok(parts)
}
