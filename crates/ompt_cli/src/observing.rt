//! The run of a job, serially or with a thread for each thread number, and its report.

ghost use Rattle.std.specs.Prelude.{◌≡◌, IfOk, List, length, true};
ghost use Rattle.team_run.specs.Program.{IsRan, run_of};
ghost use Rattle.ompt_cli.specs.{declared.job.Job.Job, Text.IsOf, Reports.HasObserved, Reports.RunsJob};

use crate::guests::Guests;
use crate::job::Job;
use crate::report::{ProgramTree, Report};
use ompt_words::Settings;
use std::alloc::AllocError;
use std::sync::Wait;
use std::thread::Threads;
use team_run::{Limits, Ran, run_serial};
use thread_run::run_threads;
use tool_api::ToolPart;

/// What a run gave: its report, its parts by thread, and the bytes that the program printed.
#[derive(Drop)]
pub(crate) struct ObservedRun<P> {
    pub report: Report,
    pub parts: Vec<P>,
    pub text: Vec<u8>,
}

/// What a run gave, unless there was no memory for it. A run that found none for its first entry is none.
pub(crate) type Observation<P> = Result<ObservedRun<P>, AllocError>;

/// The same before there is a report of it.
pub(crate) type Gave<P> = Result<Ran<P>, AllocError>;

/// Runs a serial job. Part t is called for the events of thread t.
pub(crate) fn run_alone<P: ToolPart>(job: Job, parts: Vec<P>) -> Gave<P>
    requires serial { job.settings.serial ≡ true }
    requires parts { length parts.items ≡ job.settings.threads }
    ensures { IfOk result (RunsJob P.stands_for P.same job parts.items) }
{
    let limits = Limits {
        threads: job.settings.threads,
        steps: job.settings.steps,
    };
    let Job { loaded, alloc, .. } = job;
    run_serial(alloc, loaded.program, limits, parts)
}

/// Does what [`run_alone`] does for each job, by threads where it isn't serial.
pub(crate) fn run_by_threads<R: Threads + Wait + Sync, P: ToolPart>(
    rt: &R,
    job: Job,
    parts: Vec<P>,
) -> Gave<P>
    requires { length parts.items ≡ job.settings.threads }
    ensures { IfOk result (RunsJob P.stands_for P.same job parts.items) }
{
    if job.settings.serial {
        return run_alone(job, parts);
    }
    let limits = Limits {
        threads: job.settings.threads,
        steps: job.settings.steps,
    };
    let Job { loaded, alloc, .. } = job;
    run_threads(rt, alloc, loaded.program, limits, parts)
}

/// Does what [`run_alone`] does. The report has no guests.
pub(crate) fn observe_alone<P: ToolPart>(job: Job, parts: Vec<P>) -> Observation<P>
    requires serial { job.settings.serial ≡ true }
    requires parts { length parts.items ≡ job.settings.threads }
    ensures { IfOk result (HasObserved P.stands_for P.same job parts.items) }
{
    let (alloc, settings, program) = (job.alloc, job.settings, ProgramTree::of(&job.loaded));
    let ran = run_alone(job, parts)?;
    Ok(with_report(settings, program, ran, Vec::new(alloc)))
}

/// Does what [`run_by_threads`] does. The report has no guests.
pub(crate) fn observe<R: Threads + Wait + Sync, P: ToolPart>(
    rt: &R,
    job: Job,
    parts: Vec<P>,
) -> Observation<P>
    requires { length parts.items ≡ job.settings.threads }
    ensures { IfOk result (HasObserved P.stands_for P.same job parts.items) }
{
    let (alloc, settings, program) = (job.alloc, job.settings, ProgramTree::of(&job.loaded));
    let ran = run_by_threads(rt, job, parts)?;
    Ok(with_report(settings, program, ran, Vec::new(alloc)))
}

/// What a run of this program with these settings gave, with these guests in its report.
pub(crate) fn with_report<P: ToolPart>(
    settings: Settings,
    program: ProgramTree,
    ran: Ran<P>,
    guests: Guests,
) -> ObservedRun<P>
    ensures observed { (job : Job) (parts : List P) → settings ≡ job.settings → IsOf job.loaded program →
        IsRan P.stands_for P.same settings.serial
        (run_of program.tree.value settings.threads settings.steps ran) parts ran →
        HasObserved P.stands_for P.same job parts result }
    ensures guests { result.report.guests ≡ guests }
{
    ObservedRun {
        report: Report {
            command: settings.command,
            cause: ran.cause,
            program,
            mask: ran.mask,
            threads: settings.threads,
            steps: settings.steps,
            serial: settings.serial,
            history: ran.history,
            guests,
        },
        parts: ran.parts,
        text: ran.text,
    }
}
