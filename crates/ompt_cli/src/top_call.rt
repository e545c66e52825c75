//! The call that does all: a command from bytes to bytes.

ghost use Rattle.std.specs.Prelude.{ℕ, ◌≡◌, false, true, IfErr, IfOk, IfSome, IsNone, List, ◌⊎◌};
ghost use Rattle.ompt_words.specs.declared.settings.Request.TheVariants as request;
ghost use Rattle.ompt_cli.specs.{Commands.CountsFaults, Commands.HasWritten, Ends.TellsEnd, Guests.GuestsAfter, Top.CarriesOut};
ghost use Rattle.ompt_cli.specs.Words.{AreFaulty, AreInRange, AreTakenAs, texts};

use crate::commands::run_settings;
use crate::end::End;
use crate::read_commands::read_input;
use crate::report::{ByThreads, Outcome, Top, without_run};
use crate::runner::{Alone, WithThreads};
use ompt_words::{Request, WordsFault, request_of};
use run_edges::{Sink, Source, write_all};
use std::alloc::Global;
use std::sync::Wait;
use std::thread::Threads;
use tool_api::GuestTool;

/// Does what the words say: it reads the program from `source`, or makes it for `gen`, runs it, writes what is defined to `out`, and one
/// line to `err` where the status isn't 0. For `run`, guest t is the part of thread t, and guest 0 is initialized; for all other commands
/// the guests come back as they were. `run --history` writes the run's history to `out`, and `rerun` reads one from `source` and says whether it is
/// a legal run of its program that ends as it says. `show` and `migrate` read a trace from `source`, and write it to `out` as it comes; `check`
/// reads one, and writes `ok` where it is nested. Where the words ask for help or for the version, that text is written to `out`, and nothing is read.
///
/// `words` don't contain the program's own name. With `--serial` one thread has all turns; else each thread number has a thread of its own,
/// the first one the caller's, which drives those too that can't be started. No clause says that a run by threads comes back. All else is
/// done by [`top_alone`].
/// Where nothing ran the guests are dropped.
pub fn top<R: Threads + Wait + Sync, S: Source, O: Sink, E: Sink>(
    rt: &R,
    alloc: Global,
    words: &[String],
    source: &mut S,
    out: &mut O,
    err: &mut E,
    guests: Vec<Box<dyn GuestTool>>,
) -> Top
    // The line of the end is told and the status is the end's, unless a write of the line failed.
    ensures told { TellsEnd E.held E.faults result.status result.end err.old err.new }
    // What the words decide, what ran, what was read and written, which texts are refused, which faults show, and what stays untouched.
    ensures carried { CarriesOut S.left S.faults O.held O.faults (texts words.now)
        result.end result.shown result.read result.ran source.old source.new out.old out.new }
    // Guest t was called for what thread t heard, in its order, beside a profile for what the guests registered of that, and for nothing else but a call
    // that found no memory, which ends the run.
    ensures guests { IfSome result.ran (GuestsAfter (λ guest h.
        (GuestTool-box guest).stands_for guest.value h) guests.items) }
{
    match top_alone(alloc, words, source, out, err, guests) {
        Ok(top) => top,
        Err(asked) => {
            let by = WithThreads(rt);
            let outcome = run_settings(&by, alloc, asked.settings, source, out, asked.guests);
            tell(outcome, err)
        }
    }
}

/// Does what [`top`] does for all words that don't ask for a run by threads: for `gen`, the commands that read a trace or a history, help and wrong
/// words, and for a run with `--serial`. It has no handle by which it could wait, so it comes back where the guests, the source and the sinks do. Where the
/// words ask for a run by threads, that is answered as the error, and nothing was touched.
pub fn top_alone<S: Source, O: Sink, E: Sink>(
    alloc: Global,
    words: &[String],
    source: &mut S,
    out: &mut O,
    err: &mut E,
    guests: Vec<Box<dyn GuestTool>>,
) -> Result<Top, ByThreads>
    ensures told { IfOk result (λ top. TellsEnd E.held E.faults top.status top.end err.old err.new) }
    ensures carried { IfOk result (λ top. CarriesOut S.left S.faults O.held O.faults
        (texts words.now) top.end top.shown top.read top.ran source.old source.new out.old out.new) }
    ensures guests { IfOk result (λ top.
        IfSome top.ran (GuestsAfter (λ guest h. (GuestTool-box guest).stands_for guest.value h) guests.items)) }
    // The run that it reports is a serial one.
    ensures serial { IfOk result (λ top. IfSome top.ran (λ report. report.serial ≡ true)) }
    // Only words that ask for a run by threads are given back, with the guests, and nothing was touched then.
    ensures asked { IfErr result (λ asked. AreTakenAs (texts words.now) (request.Run asked.settings) ×
        AreInRange asked.settings × (asked.settings.serial ≡ false)) }
    ensures kept { IfErr result (λ asked. asked.guests ≡ guests) }
    ensures untouched { IfErr result (λ _. (source.new ≡ source.old) × (out.new ≡ out.old) × (err.new ≡ err.old)) }
{
    match request_of(alloc, words) {
        Ok(Request::Run(settings)) => {
            if !settings.serial {
                return Err(ByThreads { settings, guests });
            }
            let outcome = run_settings(&Alone, alloc, settings, source, out, guests);
            Ok(tell(outcome, err))
        }
        Ok(Request::Read(command)) => {
            let outcome = Outcome {
                end: read_input(alloc, command, source, out),
                ran: None,
                shown: None,
                read: Some(command),
            };
            Ok(tell(outcome, err))
        }
        Err(fault) => Ok(tell(without_request(fault, source, out), err)),
    }
}

/// Shows the text that the words ask for, or refuses them. Nothing is read.
fn without_request<S: Source, O: Sink>(fault: WordsFault, _source: &S, out: &mut O) -> Outcome
    ensures carried { (words : List (List ℕ)) → AreFaulty words fault →
        CarriesOut S.left S.faults O.held O.faults words result.end result.shown result.read result.ran _source.now
        _source.now out.old out.new }
    ensures no_run { IsNone result.ran }
{
    match fault {
        WordsFault::Usage => without_run(End::Usage),
        WordsFault::Memory => without_run(End::Memory),
        WordsFault::Shown(text) => Outcome {
            end: show(&text, out),
            ran: None,
            shown: Some(text),
            read: None,
        },
    }
}

/// Writes the text that the words ask for.
fn show<O: Sink>(text: &str, out: &mut O) -> End
    ensures end { (result ≡ End.Shown) ⊎ (result ≡ End.WriteFault) }
    ensures written { HasWritten result text.now (O.held out.old) (O.held out.new) }
    ensures faults { CountsFaults result End.WriteFault (O.faults out.old) (O.faults out.new) }
{
    match write_all(out, text.as_bytes()) {
        Ok(()) => End::Shown,
        Err(_) => End::WriteFault,
    }
}

/// Writes the line of the end, and has the status.
fn tell<E: Sink>(outcome: Outcome, err: &mut E) -> Top
    ensures end { result.end ≡ outcome.end }
    ensures ran { result.ran ≡ outcome.ran }
    ensures shown { result.shown ≡ outcome.shown }
    ensures read { result.read ≡ outcome.read }
    ensures told { TellsEnd E.held E.faults result.status outcome.end err.old err.new }
{
    let end = outcome.end;
    let line = end.line();
    let status = match write_all(err, line.as_str().as_bytes()) {
        Err(_) if end != End::Memory => End::WriteFault.status(),
        _ => end.status(),
    };
    Top {
        status,
        end,
        ran: outcome.ran,
        shown: outcome.shown,
        read: outcome.read,
    }
}
