//! The commands that run a program with parts that keep what they are told: `list`, `profile`, `timeline` and `gen`, which report it, and `record`,
//! which writes the trace of the run.

ghost use Rattle.std.specs.{List.All, Prelude.◌≡◌, Prelude.◌≢◌, Prelude.IfOk, Prelude.List, Prelude.OnErr};
ghost use Rattle.ompt_cli.specs.Names.{PROFILE_MASK, EventRecord, FitsCause, trace_with, AreShared, fields_of, spelling};
ghost use Rattle.trace_format.specs.Fitting.{FitsFields};
ghost use Rattle.ompt_cli.specs.Commands.{CountsFaults, EndsAs, HasGuests, HasWritten, IsSharedFew, IsWrittenBy, unless_memory};
ghost use Rattle.ompt_cli.specs.Reports.{HasKept, Reports};

use crate::end::End;
use crate::guests::Guests;
use crate::job::Job;
use crate::keepers::{Keeper, keepers};
use crate::observing::{Observation, ObservedRun, with_report};
use crate::report::{AfterRun, Came, ProgramTree};
use crate::runner::Runner;
use crate::writing::write_made;
use omp_codes::PROFILE_MASK;
use omp_model::Cause;
use ompt_words::Command;
use run_edges::Sink;
use run_trace::trace_of;
use std::alloc::{AllocError, Global};
use tool_report::{Recorder, merge};
use trace_format::write_trace;

/// Runs the job, and writes what its command makes of what the parts kept. The guests come back as they were.
pub(crate) fn report_kept<X: Runner, P: Keeper, O: Sink>(
    by: &X,
    job: Job,
    guests: Guests,
    out: &mut O,
) -> Came
    requires kind { X.may_run by.now job.settings.serial }
    requires guestless { ¬ HasGuests job.settings.command }
    requires unrecorded { job.settings.command ≢ Command.Record }
    requires text { IsWrittenBy P.text_of job.settings.command }
    ensures ran { IfOk result (λ ended. Reports (λ guest h. (GuestTool-box guest).stands_for guest.value h)
        O.held O.faults job guests.items out.old out.new ended.end ended.report) }
    ensures untouched { OnErr result (out.new ≡ out.old) }
{
    let (alloc, command) = (job.alloc, job.settings.command);
    let observed = run_kept::<X, P>(by, job, guests)?;
    let report = observed.report;
    let made = P::text(alloc, command, &observed.parts, &observed.text);
    let end = write_made(report.cause, made, out);
    Ok(AfterRun { end, report })
}

/// Runs the job with a part for each thread that keeps what it is told. The guests of the report are these.
pub(crate) fn run_kept<X: Runner, P: Keeper>(by: &X, job: Job, guests: Guests) -> Observation<P>
    requires { X.may_run by.now job.settings.serial }
    ensures kept { IfOk result (HasKept P.keep job) }
    ensures guests { IfOk result (λ observed. observed.report.guests ≡ guests) }
{
    let (settings, program) = (job.settings, ProgramTree::of(&job.loaded));
    let mut parts = keepers::<P>(job.alloc, settings.threads)?;
    let ran = by.run(job, &mut parts)?;
    Ok(with_report(settings, program, ran, guests))
}

/// Runs the job, and writes the trace of the run. The guests come back as they were.
pub(crate) fn record<X: Runner, O: Sink>(by: &X, job: Job, guests: Guests, out: &mut O) -> Came
    requires kind { X.may_run by.now job.settings.serial }
    requires command { job.settings.command ≡ Command.Record }
    ensures ran { IfOk result (λ ended. Reports (λ guest h. (GuestTool-box guest).stands_for guest.value h)
        O.held O.faults job guests.items out.old out.new ended.end ended.report) }
    ensures untouched { OnErr result (out.new ≡ out.old) }
{
    let alloc = job.alloc;
    let ObservedRun { report, parts, .. } = run_kept::<X, Recorder>(by, job, guests)?;
    let end = write_trace_of_run(alloc, report.threads, report.cause, &parts, out);
    Ok(AfterRun { end, report })
}

/// Writes the trace of a run with so many threads that ended in this cause, unless it found no memory. The trace is whole in memory before
/// the first write. It answers how the command ends.
fn write_trace_of_run<O: Sink>(
    alloc: Global,
    threads: u8,
    cause: Cause,
    parts: &[Recorder],
    out: &mut O,
) -> End
    requires shared { IsSharedFew parts.now }
    ensures end { EndsAs cause result }
    ensures written { (events : List EventRecord) → AreShared events parts.now → HasWritten result
        (unless_memory cause (spelling (fields_of (trace_with threads PROFILE_MASK cause events))))
        (O.held out.old) (O.held out.new) }
    ensures fits { (events : List EventRecord) → AreShared events parts.now → result ≢ End.WriteFault →
        result ≢ End.Memory → FitsCause cause × All FitsFields events }
    ensures faults { CountsFaults result End.WriteFault (O.faults out.old) (O.faults out.new) }
{
    if cause == Cause::Memory {
        return End::Memory;
    }
    let Ok(events) = merge(alloc, parts) else {
        return End::Memory;
    };
    let Some(trace) = trace_of(threads, PROFILE_MASK, cause, events) else {
        return End::Memory;
    };
    match write_trace(out, &trace) {
        Ok(()) => End::Ended(cause),
        Err(_) => End::WriteFault,
    }
}
