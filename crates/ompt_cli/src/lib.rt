//! The command from bytes to bytes.
//!
//! [`top`] does what the words say, as `ompt_words` reads them. Five commands read a program from a source and run it: `list` writes a
//! line for each event to an output; `record` writes the trace of the run; `profile` writes how many calls of each callback there were;
//! `timeline` writes the states of the threads; `run` calls guests, which are tools, at the events of their threads, and writes what
//! the program printed, or with `--history` the run's history (`history_file`). With `--profile` each guest is called beside a profile
//! (`tool_profiled`), and the counts follow what was printed. `gen` makes a program, runs it, and writes a summary. Four commands read
//! a trace from the source: `show` writes a line for each event and one for the end, `migrate` writes the trace in the second version
//! of the format, `check` says whether it is nested, and `tasks` writes the task tree of one that is (`tool_tasks`). `rerun` reads a
//! history, and says whether it is a legal run of its program that ends as it says. Where the end isn't a good one, one line goes to
//! standard error. Its contract says, over any source and any sinks, what each end comes with, that what ran is one legal run of the
//! program, what the outputs gain, and what the guests were called for. Words that ask for help or the version have a text written to
//! the output in its place.
//!
//! Each thread number has a thread of the system, where it gives one (`thread_run`), or with `--serial` one thread has all turns
//! (`team_run`).
//!
//! Every text runs that is a program of the grammar, breaks no rule and is at most 65,536 bytes long. What its program printed
//! is written where the run ends in any cause but want of memory: also at a trap, at a limit, and where no thread can go on.
//!
//! The definitions stand in `specs/`: which words ask for a run or for an input to be read (`Words`), the texts that run, with their
//! programs, why others are refused, and what a command comes to that has a text (`Text`), the status and the line of each end (`Ends`),
//! how runs have ended and what a command writes (`Commands`) and reports (`Reports`), what one that reads a trace (`Traces`) or a
//! history file (`Histories`) has read and written, what guests stand for after a command (`Guests`), and the records of [`top`]'s contract
//! (`Top`). What a run of either kind gives is said in `team_run`. A report holds the tree of its program and its text for contracts alone
//! ([`ProgramTree`]).
//!
//! [`top_alone`] does the same for all words that don't ask for a run by threads, without the handles for threads and for waiting. By
//! [`each_text_is_judged`], a law, each text runs or is refused, for one reason.
//!
//! [`own_words`] gathers the words for a program's `main`. No clause says which they are, since none can. [`Top::has_printed`] tells it
//! whether more may stand behind what was printed, and [`End::exit`] ends a program with the line and the status of an end.
//!
//! Want of memory is free: no clause says when it comes, only what stands after it. That the calls succeed with ample
//! memory isn't proved: the rows of `test_commands` show it.
#![tactic(auto)]

mod commands;
mod end;
mod guests;
mod job;
mod keepers;
mod laws;
mod observing;
mod program_words;
mod read_commands;
mod report;
mod reporting;
mod rerunning;
mod run;
mod runner;
mod text;
mod top_call;
mod writing;

pub use end::{End, Refusal};
pub use laws::each_text_is_judged;
pub use ompt_words::{Command, ReadCommand, RunOutput, Settings};
pub use program_words::own_words;
pub use report::{ByThreads, ProgramTree, Report, Top};
pub use top_call::{top, top_alone};
