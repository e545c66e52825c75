//! A run as a file that others can check: what it is written as, how it is read, and whether it is a run of its program.
//!
//! A [`HistoryFile`] holds what a run is determined by (its program's text, its threads, its registered callbacks and its silent steps),
//! the run's history, and how it ended. [`write_history`] writes it, and [`read_history`] reads it from bytes or says why they are none.
//! [`rerun`] takes its history through the machine, entry by entry, and answers a [`Verdict`].
//!
//! The definitions that are to be believed stand in `specs/`: `Fields` has the fields of a file with their bytes, `Validity` which files
//! there are and what each is written as, and `Refusing` where bytes are refused, as a statement on all files that begin so. `Fitting`
//! says what writing supposes of a file and what its types know of it, `Certificates` when a file is one, and `Verdicts` what a rerun says of
//! it. `Paging`, `Reading`, `RerunProgress` and `Progressing` serve the proofs.
//!
//! Proved by the contracts of the functions that are named:
//!
//! - [`write_history`] appends what the file is written as, or at a write fault a front of it, where its lengths and threads are those
//!   of a file;
//! - [`read_history`] answers the file that the bytes are, and for all other bytes the one refusal that the definition has, unless no
//!   memory is left;
//! - [`rerun`], where it finds memory, answers whether the file is a certificate of the program: whether its history is legal and ends as the
//!   file says. If so it has the calls that are heard of the history, and if not the greatest number of first entries that are legal together.
//!   A legal history that ends otherwise, or not at all, is legal at its whole length;
//! - [`end_of`]: the status and the detail of every cause but want of memory, which has none;
//! - [`one_spelling`], [`one_refusal`], [`never_refused`], [`longest`] and [`runs_have_files`] are laws of the definitions. By the last,
//!   each legal history that ends in a cause makes a file that is a certificate of its run.
//!
//! Writing takes no memory. That it fills pages before it writes, that reading takes its room at once, and that a rerun takes no memory for an
//! entry but for its call, is proved nowhere.
#![tactic(auto)]

mod ending;
mod ends;
mod entries;
mod fields;
mod file;
mod header;
mod headers;
mod kind;
mod laws;
mod page;
mod progress;
mod reading;
mod reason;
mod rerunning;
mod values;
mod verdict;
mod waiting;
mod writing;

pub use ending::end_of;
pub use file::{ENTRY_LIMIT, FileText, HISTORY_LIMIT, HistoryFile, VERSION};
pub use laws::{longest, never_refused, one_refusal, one_spelling, runs_have_files};
pub use reading::read_history;
pub use reason::{HistoryFault, HistoryReason};
pub use rerunning::rerun;
pub use verdict::{HeardCall, HeardCalls, Verdict};
pub use writing::write_history;
