//! The commands that read: a trace for `show`, `migrate`, `check` and `tasks`, and a history file for `rerun`.

ghost use Rattle.std.specs.Prelude.{◌≡◌, ◌≢◌, IfOk, IsSomeAnd};
ghost use Rattle.ompt_cli.specs.Names.{SeenFile, WritesHistory, IsForestText, IsTrace};
ghost use Rattle.ompt_cli.specs.Traces.{HasCopy, HasJudged, HasRead, HasTasks, IsNested};
ghost use Rattle.ompt_cli.specs.{Commands.CountsFaults, Commands.IsReading, Histories.Certifies, Histories.MayCertify};

use crate::end::End;
use crate::rerunning::rerun_history;
use crate::writing::{Lines, write_read};
use ompt_words::ReadCommand;
use run_edges::{Sink, Source, write_all};
use std::alloc::Global;
use tool_tasks::{Forest, Unread, read_nested};
use trace_check::{Checked, check_trace};
use trace_copy::{Copied, Form, copy_trace};
use trace_format::Trace;

/// Reads a trace or a history file from the source, and writes what the command says of it.
pub(crate) fn read_input<S: Source, O: Sink>(
    alloc: Global,
    command: ReadCommand,
    source: &mut S,
    out: &mut O,
) -> End
    ensures end { IsReading result }
    ensures copied { HasRead command result (S.left source.old) (S.left source.new) (O.held out.old) (O.held out.new) }
    ensures memory { command ≡ ReadCommand.Migrate → result ≢ End.Memory }
    ensures certified { command ≡ ReadCommand.Rerun → (file : SeenFile) →
        IsSomeAnd (S.left source.old) (WritesHistory file) →
        Certifies file → MayCertify result }
    ensures reads { CountsFaults result End.ReadFault (S.faults source.old) (S.faults source.new) }
    ensures writes { CountsFaults result End.WriteFault (O.faults out.old) (O.faults out.new) }
{
    match command {
        ReadCommand::Show => copy(alloc, Form::Lines, source, out),
        ReadCommand::Migrate => copy(alloc, Form::SecondVersion, source, out),
        ReadCommand::Check => check(alloc, source, out),
        ReadCommand::Rerun => rerun_history(alloc, source, out),
        ReadCommand::Tasks => tell_tasks(alloc, source, out),
    }
}

/// Reads a trace, and writes it in this form.
fn copy<S: Source, O: Sink>(alloc: Global, form: Form, source: &mut S, out: &mut O) -> End
    ensures end { IsReading result }
    ensures copied { HasCopy form result (S.left source.old) (S.left source.new) (O.held out.old) (O.held out.new) }
    ensures memory { form ≡ Form.SecondVersion → result ≢ End.Memory }
    ensures reads { CountsFaults result End.ReadFault (S.faults source.old) (S.faults source.new) }
    ensures writes { CountsFaults result End.WriteFault (O.faults out.old) (O.faults out.new) }
{
    match copy_trace(alloc, form, source, out) {
        Copied::Whole => End::Read,
        Copied::Refused(refusal) => End::TraceRefused(refusal),
        Copied::ReadFault => End::ReadFault,
        Copied::WriteFault => End::WriteFault,
        Copied::Memory => End::Memory,
    }
}

/// Reads a trace, and writes `ok` where it is nested.
fn check<S: Source, O: Sink>(alloc: Global, source: &mut S, out: &mut O) -> End
    ensures end { IsReading result }
    ensures judged { HasJudged result (S.left source.old) (S.left source.new) (O.held out.old) (O.held out.new) }
    ensures reads { CountsFaults result End.ReadFault (S.faults source.old) (S.faults source.new) }
    ensures writes { CountsFaults result End.WriteFault (O.faults out.old) (O.faults out.new) }
{
    match check_trace(alloc, source) {
        Checked::Nested => match write_all(out, b"ok\n") {
            Ok(()) => End::Read,
            Err(_) => End::WriteFault,
        },
        Checked::Broken(breach) => End::Broken(breach),
        Checked::Refused(refusal) => End::TraceRefused(refusal),
        Checked::ReadFault => End::ReadFault,
        Checked::Memory => End::Memory,
    }
}

/// Reads a trace to its end, and writes its tasks where it is nested.
fn tell_tasks<S: Source, O: Sink>(alloc: Global, source: &mut S, out: &mut O) -> End
    ensures end { IsReading result }
    ensures tasks { HasTasks result (S.left source.old) (S.left source.new) (O.held out.old) (O.held out.new) }
    ensures reads { CountsFaults result End.ReadFault (S.faults source.old) (S.faults source.new) }
    ensures writes { CountsFaults result End.WriteFault (O.faults out.old) (O.faults out.new) }
{
    match read_nested(alloc, source) {
        Ok(trace) => write_read(tasks_text(alloc, &trace), out),
        Err(Unread::Refused(refusal)) => End::TraceRefused(refusal),
        Err(Unread::Broken(breach)) => End::Broken(breach),
        Err(Unread::ReadFault) => End::ReadFault,
        Err(Unread::Memory) => End::Memory,
    }
}

/// What is written of the tasks of a nested trace.
fn tasks_text(alloc: Global, trace: &Trace) -> Lines
    requires valid { IsTrace trace.now }
    requires nested { IsNested trace.now }
    ensures { IfOk result (λ text. IsForestText trace.now.events text.items) }
{
    let forest = Forest::of(alloc, trace)?;
    forest.text(alloc)
}
