//! The commands that run a program, from their settings.

ghost use Rattle.std.specs.Prelude.{ℕ, ◌≡◌, IfOk, IfSome, List, OnErr};
ghost use Rattle.ompt_words.specs.declared.settings.Request.TheVariants as request;
ghost use Rattle.ompt_cli.specs.{Guests.GuestsAfter, Reports.Reports, Top.CarriesOut, Words.AreInRange, Words.AreTakenAs};

use crate::end::End;
use crate::guests::Guests;
use crate::job::Job;
use crate::report::{Came, Outcome, without_run};
use crate::reporting::{record, report_kept};
use crate::run::{run_history, run_printed, run_profile};
use crate::runner::Runner;
use crate::text::program_for;
use ompt_words::{Command, RunOutput, Settings};
use run_edges::{Sink, Source};
use std::alloc::Global;
use tool_report::{Profile, Recorder, Timeline};

/// Reads the program, or makes it for `gen`, runs it with these settings, and writes what the command writes.
pub(crate) fn run_settings<X: Runner, S: Source, O: Sink>(
    by: &X,
    alloc: Global,
    settings: Settings,
    source: &mut S,
    out: &mut O,
    guests: Guests,
) -> Outcome
    requires kind { X.may_run by.now settings.serial }
    requires range { AreInRange settings }
    ensures carried { (words : List (List ℕ)) → AreTakenAs words (request.Run settings) →
        CarriesOut S.left S.faults O.held O.faults words result.end result.shown result.read result.ran source.old
        source.new out.old out.new }
    ensures guests { IfSome result.ran (GuestsAfter (λ guest h.
        (GuestTool-box guest).stands_for guest.value h) guests.items) }
{
    let loaded = match program_for(alloc, settings.command, source) {
        Ok(loaded) => loaded,
        Err(end) => return without_run(end),
    };
    let job = Job {
        loaded,
        settings,
        alloc,
    };
    match run_command(by, job, guests, out) {
        Ok(ended) => Outcome {
            end: ended.end,
            ran: Some(ended.report),
            shown: None,
            read: None,
        },
        Err(_) => without_run(End::Memory),
    }
}

/// Runs the job, and writes what its command writes of its run. An error says that there was no memory for the run.
fn run_command<X: Runner, O: Sink>(by: &X, job: Job, guests: Guests, out: &mut O) -> Came
    requires { X.may_run by.now job.settings.serial }
    ensures ran { IfOk result (λ ended. Reports (λ guest h. (GuestTool-box guest).stands_for guest.value h)
        O.held O.faults job guests.items out.old out.new ended.end ended.report) }
    ensures untouched { OnErr result (out.new ≡ out.old) }
{
    match job.settings.command {
        Command::Run(RunOutput::Printed) => run_printed(by, job, guests, out),
        Command::Run(RunOutput::History) => run_history(by, job, guests, out),
        Command::Run(RunOutput::Profile) => run_profile(by, job, guests, out),
        Command::Record => record(by, job, guests, out),
        Command::Profile => report_kept::<X, Profile, O>(by, job, guests, out),
        Command::Timeline(_) => report_kept::<X, Timeline, O>(by, job, guests, out),
        Command::List | Command::Generate(_) => report_kept::<X, Recorder, O>(by, job, guests, out),
    }
}
