//! What the words of the command line ask for.
//!
//! `clap` reads them, as one command with a subcommand for each [`Command`] and each [`ReadCommand`]. [`request_of`] answers the
//! [`Request`] that they make, or why there is none: the words are refused, help or the version is to be shown, or there was no
//! memory.
//!
//! Proved over the definitions of `specs/`:
//!
//! - words of the form are never refused, and give their own values with the defaults. They are a command that runs a program, and
//!   then its options in any order, each at most once; or a command that reads a trace or a history, alone (`Form`). The options are
//!   `--threads N`, `--steps N` and `--serial`, of `run` one of `--history` and `--profile` too, of `timeline` `--columns N` too, and of
//!   `gen`, which has its number of blocks before them, the threads alone;
//! - a request comes only where clap's rules find no fault in the words, and is that of its matches; such words are never refused.
//!   Words are refused only where a fault is a mistake, or where they are `run` with both `--history` and `--profile`, which always makes
//!   no request. A text is shown only where a fault asks for it (`Answers`, over the command of `CommandLine`);
//! - words of the form up to a `--help` or a `--version` give a text to show.
//!
//! What the shown text says isn't proved: clap's clauses don't speak of it. Tests of `test_calls` compare it. Want of memory is
//! free: no clause says when it comes.
#![tactic(auto)]

mod arguments;
mod clap_command;
mod fault;
mod help;
mod read_words;
mod settings;

pub use fault::WordsFault;
pub use read_words::request_of;
pub use settings::{
    Command, DEFAULT_COLUMNS, DEFAULT_STEPS, DEFAULT_THREADS, ReadCommand, Request, RunOutput,
    Settings,
};
