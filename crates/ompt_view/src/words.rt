//! What the words ask for. `clap` reads them.

use clap::error::ErrorKind;
use clap::{Arg, ArgMatches, Command, value_parser};
use std::alloc::{AllocError, Global};
use std::env;
use std::io::ErrorKind as IoErrorKind;
use std::rt::Env;
use trace_view::{ItemStyle, Picture};

/// The version that is shown.
const VERSION: &str = "0.1.0";

/// How many columns a picture of states has where the words don't say.
const DEFAULT_COLUMNS: u8 = 72;

/// A view of a trace.
#[derive(Clone, Copy, PartialEq, Eq)]
pub(crate) enum View {
    /// Its items, each as a text.
    Items(ItemStyle),
    /// A picture of a trace that is nested.
    Picture(Picture),
}

/// Why words ask for no view.
#[derive(Drop)]
pub(crate) enum WordsFault {
    /// They are refused.
    Usage,
    /// They ask for help or for the version, which is this text.
    Shown(String),
    /// There was no memory.
    Memory,
}

impl From<AllocError> for WordsFault {
    fn from(_error: AllocError) -> WordsFault {
        WordsFault::Memory
    }
}

/// The words behind the program's own name. Where the system doesn't tell them, or one is no text, there are none.
pub(crate) fn own_words<R: Env + AllocGlobal>(rt: &R) -> Result<Vec<String>, AllocError> {
    match env::args(rt) {
        Ok(words) => words.skip(1).collect(rt.alloc()),
        Err(fault) if fault.kind() == IoErrorKind::OutOfMemory => Err(AllocError),
        Err(_) => Ok(Vec::new(rt.alloc())),
    }
}

/// The view that the words ask for. They don't contain the program's own name.
pub(crate) fn view_of(alloc: Global, words: &[String]) -> Result<View, WordsFault> {
    let matches = match view_command(alloc)?.try_get_matches_from(words) {
        Ok(matches) => matches,
        Err(error) => return Err(fault_of(alloc, &error)),
    };
    match matches.subcommand() {
        Some(("names", _)) => Ok(View::Items(ItemStyle::Names)),
        Some(("chrome", _)) => Ok(View::Items(ItemStyle::Chrome)),
        Some(("svg", inner)) => Ok(View::Picture(Picture::Timeline {
            columns: columns_in(inner),
        })),
        Some(("dot", _)) => Ok(View::Picture(Picture::Tasks)),
        Some(("waits", _)) => Ok(View::Picture(Picture::Waits)),
        _ => Err(WordsFault::Usage),
    }
}

/// How many columns the matches of a command have.
fn columns_in(matches: &ArgMatches<'_>) -> u8 {
    matches.get_one::<u8>("columns").unwrap_or(DEFAULT_COLUMNS)
}

/// The command line, as clap is told of it.
fn view_command<'a>(alloc: Global) -> Result<Command<'a>, AllocError> {
    program(alloc)?
        .subcommand(names(alloc))?
        .subcommand(chrome(alloc))?
        .subcommand(svg(alloc)?)?
        .subcommand(dot(alloc))?
        .subcommand(waits(alloc))
}

/// The program itself, without its commands.
fn program<'a>(alloc: Global) -> Result<Command<'a>, AllocError> {
    Command::new(alloc, "ompt_view")
        .about("Draws a recorded trace")
        .version(VERSION)
        .propagate_version(true)
        .no_binary_name(true)
        .disable_help_subcommand(true)
        .subcommand_required(true)
        .after_help("The trace is read from standard input.")
        .bin_name("ompt_view")
}

/// The command that writes lines with names.
fn names<'a>(alloc: Global) -> Command<'a> {
    Command::new(alloc, "names")
        .about(
            "Writes a line for each event, with numbers by their names and places as line:column",
        )
        .after_help("Example: ompt_view names < run.trace")
}

/// The command that writes a trace for trace viewers.
fn chrome<'a>(alloc: Global) -> Command<'a> {
    Command::new(alloc, "chrome")
        .about("Writes a trace in the Trace Event Format, which trace viewers open")
        .after_help("Example: ompt_view chrome < run.trace > run.json")
}

/// The command that draws the states of threads.
fn svg<'a>(alloc: Global) -> Result<Command<'a>, AllocError> {
    Command::new(alloc, "svg")
        .about(
            "Draws the states of the threads of a trace that is nested as SVG, a row for each thread",
        )
        .after_help("Example: ompt_view svg --columns 100 < run.trace > states.svg")
        .arg(columns(alloc))
}

/// The command that draws the task tree.
fn dot<'a>(alloc: Global) -> Command<'a> {
    Command::new(alloc, "dot")
        .about(
            "Writes the task tree of a trace that is nested for Graphviz, a longest chain in bold",
        )
        .after_help("Example: ompt_view dot < run.trace | dot -Tsvg > tasks.svg")
}

/// The command that writes the waits.
fn waits<'a>(alloc: Global) -> Command<'a> {
    Command::new(alloc, "waits")
        .about(
            "Writes for each construct and each thread of a trace that is nested how many waits there were, and how long they took",
        )
        .after_help("Example: ompt_view waits < run.trace")
}

/// `--columns N`.
fn columns<'a>(alloc: Global) -> Arg<'a> {
    Arg::new(alloc, "columns")
        .long("columns")
        .value_name("N")
        .value_parser(value_parser!(u8).range(10..=200))
        .help("How many columns the picture has, from 10 to 200 [default: 72]")
}

/// What clap's error says: a text that is asked for, want of memory, or a mistake in the words.
fn fault_of(alloc: Global, error: &clap::Error) -> WordsFault {
    match error.kind() {
        ErrorKind::DisplayHelp | ErrorKind::DisplayVersion => shown(alloc, error),
        ErrorKind::OutOfMemory => WordsFault::Memory,
        _ => WordsFault::Usage,
    }
}

/// The text that the words ask for.
fn shown(alloc: Global, error: &clap::Error) -> WordsFault {
    match format!(in alloc; "{error}") {
        Ok(text) => WordsFault::Shown(text),
        Err(_) => WordsFault::Memory,
    }
}
