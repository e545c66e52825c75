//! The command `run`: it runs the program with guests as the parts of its threads, and writes what it prints, or the
//! history of its run, as a file that others can check. With a profile guests are called beside profiles, and the counts follow what the
//! program prints.

ghost use Rattle.std.specs.Prelude.{◌≡◌, ◌≢◌, ◌≤◌, ◌⊎◌, ◌++◌, All, IfOk, List, OnErr, Some, length};
ghost use Rattle.history_file.specs.{Fields.fields_of, Fields.spelling, Fitting.HasThread, declared.file.TheConstants.ENTRY_LIMIT};
ghost use Rattle.ompt_cli.specs.Names.{after, records_of, EventRecord, FitsFile, counts_of, AreKept, profile_of};
ghost use Rattle.ompt_cli.specs.Commands.{CountsFaults, EndsAs, HasWritten, run_of, run_text, text_in};
ghost use Rattle.ompt_cli.specs.{declared.job.Job.Job, Guests.GuestsAfter, Reports.HasCertificate, Reports.Observes, Reports.Reports};

use crate::end::End;
use crate::guests::{Guests, Handing, hand_out_all, take_back_all};
use crate::job::Job;
use crate::observing::{Observation, ObservedRun};
use crate::report::{AfterRun, Came, Report};
use crate::runner::Runner;
use crate::writing::{Lines, write_made, write_run};
use history_file::{FileText, HistoryFile, end_of, write_history};
use omp_model::Cause;
use ompt_calls::Sequence;
use ompt_words::{Command, RunOutput};
use run_edges::Sink;
use std::alloc::{AllocError, Global};
use tool_profiled::{Joined, Parted, join_all, part_all};
use tool_report::{Profile, profile_text};

/// Runs the job, and writes what the program printed. Guest t is the part of thread t; threads past the guests have none.
pub(crate) fn run_printed<X: Runner, O: Sink>(by: &X, job: Job, guests: Guests, out: &mut O) -> Came
    requires kind { X.may_run by.now job.settings.serial }
    requires command { job.settings.command ≡ Command.Run RunOutput.Printed }
    ensures ran { IfOk result (λ ended. Reports (λ guest h. (GuestTool-box guest).stands_for guest.value h)
        O.held O.faults job guests.items out.old out.new ended.end ended.report) }
    ensures untouched { OnErr result (out.new ≡ out.old) }
{
    let (report, text) = serve(by, job, guests)?;
    let end = write_run(report.cause, &text, out);
    Ok(AfterRun { end, report })
}

/// Runs the job, and writes the history of its run. It takes no memory after the run.
pub(crate) fn run_history<X: Runner, O: Sink>(by: &X, job: Job, guests: Guests, out: &mut O) -> Came
    requires kind { X.may_run by.now job.settings.serial }
    requires command { job.settings.command ≡ Command.Run RunOutput.History }
    ensures ran { IfOk result (λ ended. Reports (λ guest h. (GuestTool-box guest).stands_for guest.value h)
        O.held O.faults job guests.items out.old out.new ended.end ended.report) }
    ensures untouched { OnErr result (out.new ≡ out.old) }
{
    let text = Sequence(job.loaded.text.as_slice().to_vec(job.alloc)?);
    let (report, _) = serve(by, job, guests)?;
    Ok(write_history_of_run(report, text, out))
}

/// Runs the job with the guests, which are back in its report, beside what the program printed. A run that found no memory for its first entry is none.
fn serve<X: Runner>(by: &X, job: Job, guests: Guests) -> Result<(Report, Vec<u8>), AllocError>
    requires kind { X.may_run by.now job.settings.serial }
    requires command { (job.settings.command ≡ Command.Run RunOutput.Printed) ⊎
        (job.settings.command ≡ Command.Run RunOutput.History) }
    ensures observes { IfOk result (λ served. Observes job served.0) }
    ensures guests { IfOk result (λ served.
        GuestsAfter (λ guest h. (GuestTool-box guest).stands_for guest.value h) guests.items served.0) }
    ensures printed { IfOk result (λ served.
        served.1.items ≡ (after (run_of served.0) served.0.history).world.store.text) }
{
    let Handing { parts, waiting } = hand_out_all(job.alloc, job.settings.threads, guests)?;
    let mut observed = by.run_guests(job, parts)?;
    observed.report.guests = take_back_all(observed.parts, waiting);
    Ok((observed.report, observed.text))
}

/// Runs the job, and writes what the program printed, and then how many calls of each callback there were. Guest t is the part of thread t beside a profile.
pub(crate) fn run_profile<X: Runner, O: Sink>(by: &X, job: Job, guests: Guests, out: &mut O) -> Came
    requires kind { X.may_run by.now job.settings.serial }
    requires command { job.settings.command ≡ Command.Run RunOutput.Profile }
    ensures ran { IfOk result (λ ended. Reports (λ guest h. (GuestTool-box guest).stands_for guest.value h)
        O.held O.faults job guests.items out.old out.new ended.end ended.report) }
    ensures untouched { OnErr result (out.new ≡ out.old) }
{
    let alloc = job.alloc;
    let observed = serve_profiled(by, job, guests)?;
    let report = observed.report;
    let made = with_profile(alloc, observed.text, &observed.parts);
    let end = write_made(report.cause, made, out);
    Ok(AfterRun { end, report })
}

/// This text, and behind it the report of what these profiles counted.
fn with_profile(alloc: Global, printed: Vec<u8>, profiles: &[Profile]) -> Lines
    ensures { IfOk result (λ text. (events : List EventRecord) → AreKept counts_of events profiles.now →
        text.items ≡ printed.items ++ profile_of events) }
{
    let mut text = printed;
    let counts = profile_text(alloc, profiles)?;
    text.extend_from_slice(counts.as_slice())?;
    Ok(text)
}

/// Runs the job with the guests beside profiles. The guests are back in the report, and the parts are the profiles.
fn serve_profiled<X: Runner>(by: &X, job: Job, guests: Guests) -> Observation<Profile>
    requires kind { X.may_run by.now job.settings.serial }
    requires command { job.settings.command ≡ Command.Run RunOutput.Profile }
    ensures observes { IfOk result (λ counted. Observes job counted.report) }
    ensures guests { IfOk result (λ counted.
        GuestsAfter (λ guest h. (GuestTool-box guest).stands_for guest.value h) guests.items counted.report) }
    ensures printed { IfOk result (λ counted.
        counted.text.items ≡ (after (run_of counted.report) counted.report.history).world.store.text) }
    ensures counted { IfOk result (λ counted.
        AreKept counts_of (records_of (run_of counted.report) counted.report.history) counted.parts.items) }
{
    let Handing { parts, waiting } = hand_out_all(job.alloc, job.settings.threads, guests)?;
    let Joined { parts, room, .. } = join_all(job.alloc, parts)?;
    let mut observed = by.run_joined(job, parts)?;
    let Parted { parts, profiles } = part_all(room, observed.parts);
    observed.report.guests = take_back_all(parts, waiting);
    Ok(ObservedRun {
        report: observed.report,
        parts: profiles,
        text: observed.text,
    })
}

/// Writes the history file of the run that is reported, whose program has this text, unless the run found no memory. It takes no memory.
fn write_history_of_run<O: Sink>(report: Report, text: FileText, out: &mut O) -> AfterRun
    requires command { report.command ≡ Command.Run RunOutput.History }
    requires observes { (job : Job) × Observes job report }
    requires text { text_in report ≡ text }
    ensures report { result.report ≡ report }
    ensures end { EndsAs report.cause result.end }
    ensures memory { report.cause ≢ Cause.Memory → result.end ≢ End.Memory }
    ensures written { HasWritten result.end (run_text (Some report)) (O.held out.old) (O.held out.new) }
    ensures certified { result.end ≢ End.WriteFault → result.end ≢ End.Memory → HasCertificate report }
    ensures faults { CountsFaults result.end End.WriteFault (O.faults out.old) (O.faults out.new) }
{
    let Some((status, detail)) = end_of(report.cause) else {
        return AfterRun {
            end: End::Memory,
            report,
        };
    };
    let file = HistoryFile {
        threads: report.threads,
        mask: report.mask,
        steps: report.steps,
        text,
        history: report.history,
        status,
        detail,
    };
    let end = write_file(report.cause, &file, out);
    AfterRun {
        end,
        report: Report {
            history: file.history,
            ..report
        },
    }
}

/// Writes the history file of a run that ended in this cause. It answers how the command ends.
fn write_file<O: Sink>(cause: Cause, file: &HistoryFile, out: &mut O) -> End
    requires threads { All HasThread file.now.history }
    requires text { length file.now.text ≤ 65536 }
    requires count { length file.now.history ≤ ENTRY_LIMIT }
    ensures end { (result ≡ End.Ended cause) ⊎ (result ≡ End.WriteFault) }
    ensures written { HasWritten result (spelling (fields_of file.now)) (O.held out.old) (O.held out.new) }
    ensures fits { result ≢ End.WriteFault → FitsFile file.now }
    ensures faults { CountsFaults result End.WriteFault (O.faults out.old) (O.faults out.new) }
{
    match write_history(out, file) {
        Ok(()) => End::Ended(cause),
        Err(_) => End::WriteFault,
    }
}
