//! The command `rerun`: it reads a history file, and says whether it is a certificate.

ghost use Rattle.std.specs.Prelude.{ℕ, ◌<◌, ◌^◌, ◌≡◌, ◌≢◌, ◌⊎◌, ◌++◌, Err, IfErr, IfOk, IfSome, IsSomeAnd, List, MatchResult, Option, length};
ghost use Rattle.ompt_cli.specs.{Commands.CountsFaults, Commands.IsReading, Histories.Certifies, Histories.HasFile, Histories.HasRerun};
ghost use Rattle.ompt_cli.specs.{Histories.IsUnreadFile, Histories.MayCertify, Histories.lines_of_calls, Names.Rose, Names.line_of_mark};
ghost use Rattle.ompt_cli.specs.Names.{SeenFile, IsCertificate, run_of_file, IsHistoryFile, WritesHistory};

use crate::end::End;
use crate::text::program_of;
use crate::writing::{Lines, write_read};
use c_check::Program;
use history_file::{
    HISTORY_LIMIT, HeardCall, HistoryFault, HistoryFile, HistoryReason, Verdict, read_history,
    rerun,
};
use ompt_calls::line_of;
use run_edges::{ReadAllFault, Sink, Source, read_all};
use std::alloc::Global;
use trace_copy::line_of_end;
use trace_format::EndMark;

/// Reads a history file from the source, and says whether it is a certificate: where it is, the calls that were heard are written, a line each, and how
/// the run ended.
pub(crate) fn rerun_history<S: Source, O: Sink>(alloc: Global, source: &mut S, out: &mut O) -> End
    ensures end { IsReading result }
    ensures rerun { HasRerun result (S.left source.old) (O.held out.old) (O.held out.new) }
    ensures certified { (file : SeenFile) → IsSomeAnd (S.left source.old) (WritesHistory file) → Certifies file →
        MayCertify result }
    ensures reads { CountsFaults result End.ReadFault (S.faults source.old) (S.faults source.new) }
    ensures writes { CountsFaults result End.WriteFault (O.faults out.old) (O.faults out.new) }
{
    match read_file(alloc, source) {
        Ok(file) => judge(alloc, &file, out),
        Err(end) => end,
    }
}

/// Reads a history file to its end.
fn read_file<S: Source>(alloc: Global, source: &mut S) -> Result<HistoryFile, End>
    ensures file { IfOk result (λ file. IfSome (S.left source.old) (WritesHistory file) × IsHistoryFile file) }
    ensures refused { IfErr result (IsUnreadFile (S.left source.old)) }
    ensures only { (file : SeenFile) → IsSomeAnd (S.left source.old) (WritesHistory file) →
        MatchResult result (λ given. given ≡ file) (λ end. (end ≡ End.ReadFault) ⊎ (end ≡ End.Memory)) }
    ensures read { result ≡ Err End.ReadFault → Rose (S.faults source.old) (S.faults source.new) }
    ensures steady { result ≢ Err End.ReadFault → S.faults source.new ≡ S.faults source.old }
{
    match read_all(alloc, source, HISTORY_LIMIT) {
        Ok(bytes) => file_of_bytes(alloc, &bytes),
        Err(ReadAllFault::TooLong) => Err(End::HistoryRefused(
            HistoryReason::TooLong,
            u64::from(HISTORY_LIMIT),
        )),
        Err(ReadAllFault::ReadFault) => Err(End::ReadFault),
        Err(ReadAllFault::Memory) => Err(End::Memory),
    }
}

/// The history file that the bytes are.
fn file_of_bytes(alloc: Global, bytes: &[u8]) -> Result<HistoryFile, End>
    ensures file { IfOk result (λ file. WritesHistory file bytes.now) }
    ensures refused { IfErr result (IsUnreadFile (Some bytes.now)) }
    ensures only { (file : SeenFile) → WritesHistory file bytes.now →
        MatchResult result (λ given. given ≡ file) (λ end. (end ≡ End.ReadFault) ⊎ (end ≡ End.Memory)) }
    ensures read { result ≢ Err End.ReadFault }
{
    match read_history(alloc, bytes) {
        Ok(file) => Ok(file),
        Err(HistoryFault::Refused(reason, offset)) => Err(End::HistoryRefused(reason, offset)),
        Err(HistoryFault::Memory) => Err(End::Memory),
    }
}

/// Judges a history file.
fn judge<O: Sink>(alloc: Global, file: &HistoryFile, out: &mut O) -> End
    requires { IsHistoryFile file.now }
    ensures end { IsReading result }
    ensures faultless { result ≢ End.ReadFault }
    ensures rerun { (left : Option (List ℕ)) → IfSome left (WritesHistory file.now) →
        HasRerun result left (O.held out.old) (O.held out.new) }
    ensures certified { Certifies file.now → MayCertify result }
    ensures writes { CountsFaults result End.WriteFault (O.faults out.old) (O.faults out.new) }
{
    match program_of(alloc, file.text.as_slice()) {
        Ok(program) => judge_program(alloc, program, file, out),
        Err(end) => end,
    }
}

/// Judges a history file whose text spells this program.
fn judge_program<O: Sink>(alloc: Global, program: Program, file: &HistoryFile, out: &mut O) -> End
    requires { IsHistoryFile file.now }
    ensures end { IsReading result }
    ensures faultless { result ≢ End.ReadFault }
    ensures rerun { (left : Option (List ℕ)) → HasFile left file.now program →
        HasRerun result left (O.held out.old) (O.held out.new) }
    ensures certified { IsCertificate (run_of_file program file.now) file.now → MayCertify result }
    ensures writes { CountsFaults result End.WriteFault (O.faults out.old) (O.faults out.new) }
{
    match rerun(alloc, program, file) {
        Ok(Verdict::Legal(calls)) => write_read(heard_text(alloc, file, &calls.0), out),
        Ok(Verdict::Illegal(place)) => End::Illegal(place),
        Err(_) => End::Memory,
    }
}

/// A line for each call that was heard, and one for how the run of the file ended.
fn heard_text(alloc: Global, file: &HistoryFile, calls: &[HeardCall]) -> Lines
    requires { length file.now.history < 2 ^ 32 }
    ensures { IfOk result (λ text. text.items ≡ lines_of_calls calls.now ++
        line_of_mark (record { status = file.now.status; detail = file.now.detail; count = length file.now.history })) }
{
    let mut text = Vec::new(alloc);
    for call in calls {
        let line = line_of(alloc, call.seq, call.thread, &call.call)?;
        text.extend_from_slice(line.as_slice())?;
    }
    let end = line_of_end(EndMark {
        status: file.status,
        detail: file.detail,
        count: file.history.as_slice().len() as u32,
    });
    text.extend_from_slice(end.as_str().as_bytes())?;
    Ok(text)
}
