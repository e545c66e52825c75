//! Pictures of a recorded trace, which is read from standard input.
//!
//! `ompt_view names` writes a line for each event with names, `ompt_view chrome` the trace for trace viewers, `ompt_view svg` the states of threads
//! over the run as SVG, `ompt_view dot` the task tree for Graphviz, and `ompt_view waits` a table of waits. What they write is said by the contracts
//! of `trace_view`. The words are read by `clap`. Statuses and lines of ends are those of the definitions in `specs/Ends`, as the runner `ompt` has
//! them. Proved beside that is that the program is safe and ends, where its reads and writes end.
#![tactic(auto)]

ghost use Rattle.std.specs.Prelude.{◌≡◌, ◌⊎◌};
ghost use Rattle.std.specs.Process.{exit_status};
ghost use Rattle.trace_view.specs.declared.viewed.Viewed.TheVariants.{Memory};
ghost use Rattle.ompt_view.specs.Ends.{status_of};

mod end;
mod words;

use end::End;
use run_edges::{Sink, Source, StdSink, StdSource, write_all};
use std::alloc::Global;
use std::process::ExitCode;
use trace_view::{Viewed, view_items, view_picture};
use words::{View, WordsFault, own_words, view_of};

fn main(rt: HostRuntime) -> ExitCode {
    let mut err = StdSink::new(rt.stderr());
    let Ok(words) = own_words(&rt) else {
        return ended(End::Ended(Viewed::Memory), &mut err);
    };
    let mut source = StdSource::new(rt.stdin());
    let mut out = StdSink::new(rt.stdout());
    let end = view(rt.alloc(), words.as_slice(), &mut source, &mut out);
    ended(end, &mut err)
}

/// Writes the view that the words ask for.
fn view<S: Source, O: Sink>(alloc: Global, words: &[String], source: &mut S, out: &mut O) -> End {
    match view_of(alloc, words) {
        Ok(View::Items(style)) => End::Ended(view_items(alloc, style, source, out)),
        Ok(View::Picture(picture)) => End::Ended(view_picture(alloc, picture, source, out)),
        Err(WordsFault::Shown(text)) => show(text.as_str(), out),
        Err(WordsFault::Usage) => End::Usage,
        Err(WordsFault::Memory) => End::Ended(Viewed::Memory),
    }
}

/// Writes the text that the words ask for.
fn show<O: Sink>(text: &str, out: &mut O) -> End {
    match write_all(out, text.as_bytes()) {
        Ok(()) => End::Shown,
        Err(_) => End::Ended(Viewed::WriteFault),
    }
}

/// Tells this end by its line, and ends with its status. Where the line can't be written that is a write fault, but want of memory stays.
fn ended<E: Sink>(end: End, err: &mut E) -> ExitCode
    ensures status { (exit_status result ≡ status_of end) ⊎ (exit_status result ≡ 9) }
    ensures memory { end ≡ End.Ended Memory → exit_status result ≡ 10 }
{
    match write_all(err, end.line().as_str().as_bytes()) {
        Err(_) if end != End::Ended(Viewed::Memory) => ExitCode::from(9),
        _ => ExitCode::from(end.status()),
    }
}
