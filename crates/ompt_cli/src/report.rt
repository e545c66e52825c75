//! How a command ended, and what it reports of its run.

ghost use Rattle.std.specs.Prelude.{◌≡◌, ◌↔◌, None, IsTrue};
ghost use Rattle.ompt_cli.specs.{Reports.HasPrinted, Text.IsOf};

use crate::end::End;
use crate::job::LoadedProgram;
use c_check::Program;
use omp_model::{Cause, History};
use ompt_words::{Command, ReadCommand, RunOutput, Settings};
use std::alloc::AllocError;
use std::snapshot::Snapshot;
use tool_api::GuestTool;

/// The tree of a program that ran, and its text. A run consumes its program, so that nothing of it is left to hold: this takes no memory, and
/// contracts alone see the two.
#[derive(Drop)]
pub struct ProgramTree {
    /// The tree of the program.
    pub tree: Snapshot<Program>,
    /// Its text.
    pub text: Snapshot<Vec<u8>>,
}

impl ProgramTree {
    /// The tree of the program, with its text.
    pub(crate) fn of(loaded: &LoadedProgram) -> ProgramTree
        ensures { IsOf loaded.now result }
    {
        ProgramTree {
            tree: Snapshot::of(&loaded.program),
            text: Snapshot::of(&loaded.text),
        }
    }
}

/// What a command reports of its run.
#[derive(Drop)]
pub struct Report {
    /// The command that ran.
    pub command: Command,
    /// Why the run ended.
    pub cause: Cause,
    /// The tree of the program that ran and its text, for contracts.
    pub program: ProgramTree,
    /// The callbacks that were registered, bit n for number n: for all commands but `run` [`PROFILE_MASK`](omp_codes::PROFILE_MASK), and for `run` what guest 0
    /// registered, where it is active, with those of the profile beside it where that is asked for.
    pub mask: u64,
    /// How many threads there might be.
    pub threads: u8,
    /// How many silent steps there might be.
    pub steps: u32,
    /// Whether the run was serial: one thread had all turns. Else each thread number had a thread of its own, if it could be started.
    pub serial: bool,
    /// The run's entries.
    pub history: History,
    /// The guests, in their order. Each is of the type of tool that was handed in at its place, and for all commands but `run` it is that guest.
    pub guests: Vec<Box<dyn GuestTool>>,
}

/// What words ask for that want a run by threads: the settings, which aren't serial, and the guests that were handed in with them.
#[derive(Drop)]
pub struct ByThreads {
    /// The settings of the run.
    pub settings: Settings,
    /// The guests, in their order.
    pub guests: Vec<Box<dyn GuestTool>>,
}

/// What a command came to.
#[derive(Drop)]
pub struct Top {
    /// The status that the program ends with.
    pub status: u8,
    /// How the command ended, before its line was told.
    pub end: End,
    /// The report of the run. It is there at the ends `Ended` and `WriteFault`, and
    /// isn't at `Usage`, `Shown`, `Read`, `Refused`, `TraceRefused`, `HistoryRefused`, `Broken`, `Illegal` and `ReadFault`, nor at a `WriteFault` where a text was to be
    /// shown or a trace was read. At `Memory` it may be there; where its cause is want of memory, its history has an entry.
    pub ran: Option<Report>,
    /// The text that the words asked for: help or the version. It is there at the end `Shown`, and at a `WriteFault` where it
    /// couldn't be written whole.
    pub shown: Option<String>,
    /// The command that has read a trace or a history file, where the words ask for one. Then nothing ran.
    pub read: Option<ReadCommand>,
}

impl Top {
    /// Whether the command is `run` without `--history`, and has written what the program printed, so that more may stand behind it.
    pub fn has_printed(&self) -> bool
        ensures { IsTrue result ↔ HasPrinted self.now.end self.now.ran }
    {
        let Some(report) = &self.ran else {
            return false;
        };
        match report.command {
            Command::Run(RunOutput::History) => false,
            Command::Run(_) => self.end != End::Memory && self.end != End::WriteFault,
            _ => false,
        }
    }
}

/// How a command ended that has run, and what it reports of its run.
#[derive(Drop)]
pub(crate) struct AfterRun {
    pub end: End,
    pub report: Report,
}

/// How a command ended that has run, unless there was no memory for its run.
pub(crate) type Came = Result<AfterRun, AllocError>;

/// What a command came to, with its line still to be told: a [`Top`] without a status.
#[derive(Drop)]
pub(crate) struct Outcome {
    pub end: End,
    pub ran: Option<Report>,
    pub shown: Option<String>,
    pub read: Option<ReadCommand>,
}

/// What a command came to that ended before its run.
pub(crate) fn without_run(end: End) -> Outcome
    ensures { result ≡ record { end = end; ran = None; shown = None; read = None } }
{
    Outcome {
        end,
        ran: None,
        shown: None,
        read: None,
    }
}
