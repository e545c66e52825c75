//! How a command ended: its status and its line on standard error.

ghost use Rattle.std.specs.{Prelude.◌≡◌, Prelude.◌≤◌, Prelude.◌∷◌, Prelude.◌++◌, Prelude.[], Prelude.length, Process.exit_status};
ghost use Rattle.run_trace.specs.TraceOf.{status_of as status_of_cause};
ghost use Rattle.ompt_cli.specs.Ends.{line_at, line_of_cause, line_of_end, refusal_at, refusal_text, status_of};

use arrayvec::ArrayString;
use c_check::CheckFault;
use c_syntax::SyntaxFault;
use c_tokens::{NOWHERE, Spot, TokenFault};
use history_file::HistoryReason;
use itoa::{Buffer, Integer};
use omp_model::Cause;
use run_edges::{Sink, write_all};
use std::process::ExitCode;
use trace_check::Breach;
use trace_copy::push_number;

/// Why a text is refused.
#[derive(Clone, Copy, PartialEq, Eq)]
pub enum Refusal {
    /// The first fault of its tokens: number 1, 2 or 3.
    Tokens(TokenFault),
    /// Its fault by the grammar: number 4, 5, 6 or 7.
    Syntax(SyntaxFault),
    /// The first rule that it breaks: a number from 8 to 14.
    Rule(CheckFault),
    /// Number 15: it is longer than 65,536 bytes.
    TooLong,
}

/// How a command ended.
#[derive(Clone, Copy, PartialEq, Eq)]
pub enum End {
    /// There was a run, and it ended in this cause, which isn't want of memory.
    Ended(Cause),
    /// The words ask for help or for the version, which was shown. Nothing ran.
    Shown,
    /// The trace was read to its end, or the history file is a certificate, and what was asked of it was written.
    Read,
    /// The words are refused.
    Usage,
    /// The text is refused.
    Refused(Refusal),
    /// The trace is refused.
    TraceRefused(trace_format::Refusal),
    /// The bytes are no history file, for this reason at this offset, counted from 0.
    HistoryRefused(HistoryReason, u64),
    /// The trace isn't nested, and this is its first breach.
    Broken(Breach),
    /// The history of the file isn't a legal run of its program that ends as the file says. This is how many of its first entries are legal together.
    Illegal(u32),
    /// A read failed.
    ReadFault,
    /// A write failed.
    WriteFault,
    /// There was no memory.
    Memory,
}

impl End {
    /// The exit status.
    pub fn status(self) -> u8
        ensures { result ≡ status_of self }
    {
        match self {
            End::Ended(cause) => status_of_cause(cause),
            End::Shown | End::Read => 0,
            End::Usage => 2,
            End::Refused(_) => 3,
            End::TraceRefused(_) | End::HistoryRefused(..) | End::Broken(_) | End::Illegal(_) => 7,
            End::ReadFault => 8,
            End::WriteFault => 9,
            End::Memory => 10,
        }
    }

    /// The line on standard error with its newline, which is empty where the status is 0.
    pub fn line(self) -> ArrayString<160>
        ensures { result.bytes ≡ line_of_end self }
    {
        match self {
            End::Ended(cause) => line_of_cause(cause),
            End::Shown | End::Read => line_of(""),
            End::Usage => line_of(
                "usage: ompt run, list, record, profile, timeline, show, check, gen, migrate, rerun or tasks\n",
            ),
            End::Refused(why) => why.line(),
            End::TraceRefused(refusal) => line_at(
                "trace refused ",
                refusal.reason.number(),
                refusal.offset,
            ),
            End::HistoryRefused(reason, offset) => line_at(
                "history refused ",
                reason.number(),
                offset,
            ),
            End::Broken(breach) => line_at("breach ", breach.rule, u64::from(breach.seq)),
            End::Illegal(place) => line_with("illegal at ", place),
            End::ReadFault => line_of("read fault\n"),
            End::WriteFault => line_of("write fault\n"),
            End::Memory => line_of("memory\n"),
        }
    }

    /// Tells the end by its line, and is the end of a program with its status, also where the line can't be written.
    pub fn exit<E: Sink>(self, err: &mut E) -> ExitCode
        ensures { exit_status result ≡ status_of self }
    {
        let _line = write_all(err, self.line().as_str().as_bytes());
        ExitCode::from(self.status())
    }
}

impl Refusal {
    /// The line that tells it, with its newline. A refusal of the whole text is told at 0:0.
    fn line(self) -> ArrayString<160>
        ensures { result.bytes ≡ refusal_text self ++ 10 ∷ [] }
    {
        match self {
            Refusal::Tokens(fault) => line_of_refusal(fault.number(), fault.spot()),
            Refusal::Syntax(fault) => line_of_refusal(fault.number(), fault.spot()),
            Refusal::Rule(fault) => line_of_refusal(fault.number(), fault.spot()),
            Refusal::TooLong => line_of_refusal(15, NOWHERE),
        }
    }
}

/// The exit status of a run that ended in this cause.
fn status_of_cause(cause: Cause) -> u8
    ensures { result ≡ status_of_cause cause }
{
    match cause {
        Cause::Done => 0,
        Cause::Returned(_) => 1,
        Cause::Trapped(_) => 4,
        Cause::Deadlock => 5,
        Cause::Limit(_) => 6,
        Cause::Memory => 10,
    }
}

/// The line that tells the cause in which a run ended, with its newline. A limit has a number: 1 of silent steps, 2 of turns, 3 of cells, 4 of
/// tasks, 5 of the tasks on a thread's stack, 6 of the depth of calls, 7 of printed text.
fn line_of_cause(cause: Cause) -> ArrayString<160>
    ensures { result.bytes ≡ line_of_cause cause }
{
    match cause {
        Cause::Done => line_of(""),
        Cause::Returned(value) => line_with("returned ", value),
        Cause::Trapped(number) => line_with("trapped ", number),
        Cause::Deadlock => line_of("deadlock\n"),
        Cause::Limit(1) => line_of("limit steps\n"),
        Cause::Limit(2) => line_of("limit turns\n"),
        Cause::Limit(3) => line_of("limit cells\n"),
        Cause::Limit(4) => line_of("limit tasks\n"),
        Cause::Limit(5) => line_of("limit stack\n"),
        Cause::Limit(6) => line_of("limit depth\n"),
        Cause::Limit(_) => line_of("limit text\n"),
        Cause::Memory => line_of("memory\n"),
    }
}

/// The line that tells a refusal with this number at this place.
fn line_of_refusal(number: u32, spot: Spot) -> ArrayString<160>
    ensures { result.bytes ≡ refusal_at number spot ++ 10 ∷ [] }
{
    let mut line = line_of("refused ");
    push_number(&mut line, number);
    line.push_str(" at ");
    push_number(&mut line, spot.line);
    line.push_str(":");
    push_number(&mut line, spot.column);
    line.push_str("\n");
    line
}

/// A line of this text and a number.
fn line_with<I: Integer>(text: &str, number: I) -> ArrayString<160>
    requires { length text.now ≤ 40 }
    ensures { result.bytes ≡ (text.now ++ I.text number) ++ 10 ∷ [] }
{
    let mut digits = Buffer::new();
    let mut line = line_of(text);
    line.push_str(digits.format(number));
    line.push_str("\n");
    line
}

/// A line of this text, a number, and a place.
fn line_at(text: &str, number: u8, place: u64) -> ArrayString<160>
    requires { length text.now ≤ 40 }
    ensures { result.bytes ≡ line_at text.now number place }
{
    let mut digits = Buffer::new();
    let mut line = line_of(text);
    push_number(&mut line, u32::from(number));
    line.push_str(" at ");
    line.push_str(digits.format(place));
    line.push_str("\n");
    line
}

/// A line of this text.
fn line_of(text: &str) -> ArrayString<160>
    requires { length text.now ≤ 160 }
    ensures { result.bytes ≡ text.now }
{
    let mut line = ArrayString::new();
    line.push_str(text);
    line
}
