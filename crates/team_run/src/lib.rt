//! Runs of a program, with the parts of a tool.
//!
//! [`run_serial`] runs a checked program over a book of `step_book`, in the serial order: threads take turns round and
//! round, and the callback of an event comes directly after its Go. It is handed a part of a tool for each thread, a
//! [`ToolPart`](tool_api::ToolPart), and calls part t for the events of thread t.
//!
//! Part 0 is also started, before the first entry. Where it answers another number than 0 the tool is active: what part 0
//! registered is the mask of the run, and part 0 is finished after the last entry. Where it answers 0 the mask is 0, no
//! part is called, and none is finished.
//!
//! At an event whose callback is registered the thread's part is told of it, with what can be inquired right after it.
//! The stores of the reply take effect in their order, each with an entry, and the Back follows. A store at a place that
//! isn't there is passed over. Where the part finds no memory the run ends, with the event's Go as its last entry.
//!
//! A run under way, which is private, has the book with the entries so far, and the parts of the tool. How the first part is
//! started and finished is public ([`initialize_first`], [`finalize_first`]): a run by threads does the same.
//!
//! Proved by the contract of [`run_serial`], for every kind of part, over the definitions of `omp_model` and of `specs/`.
//! It holds of each [`Ran`] that is answered; "the run" is that of the program, the threads and the silent steps that were
//! handed in, with the mask in the answer. `ran` is a record (`IsRan`), which `thread_run` says too of a run by threads. What
//! it says of the history stands in `ran.to` (`RunsTo`):
//!
//! - `ran.to.legal`: the history is legal for the run;
//! - `ran.to.ends`: the cause is the one in which the history ends;
//! - `ran.to.own`: nothing is heard on a thread that the run doesn't have. So nothing is heard for which no part was called;
//! - `ran.to.in_order`: a serial run's history is in the serial order: each Go is of the first enabled thread after the one
//!   before, and an event's stores and its Back follow its Go directly;
//! - `ran.to.whole`: where no store took effect, a serial run's history is `serial` of the run, the one list;
//! - `ran.to.begun`: where the cause is `Memory`, the history has an entry;
//! - `ran.parts`: part 0 was started once, and the mask is what it then registered, or 0 where it answered 0. It was finished
//!   once and after all its calls where it answered another number, and else not at all. No other part was started or
//!   finished. Each part was called for what its thread hears of the history, in order: the position of the event, its
//!   call, its snapshot, and the stores that took effect. Where the history ends inside the callback of a thread, which is
//!   then registered, that thread's part was called once more and found no memory. That is so only where the cause is
//!   [`Memory`](omp_model::Cause::Memory). For nothing else was a part called;
//! - `ran.same`: each part is the same as before, by a relation of its own; `ran.always`: the mask has callbacks alone that are
//!   called always;
//! - `ran.text`: the text is what the program has printed in the state after the history, also where the cause is `Memory`.
//!
//! `ran.to.ends` and `ran.to.whole` say nothing where the cause is `Memory`. The history then stops between two turns, or after
//! the Go of the event whose callback found no memory. What a part "was called for" is said by `stands_for` of
//! its kind: a part that stood for a record of calls stands afterwards for the record with these calls. So a kind that
//! stands for everything tells nothing.
//!
//! Not proved:
//!
//! - that a run finds memory: an error, or the cause `Memory`, is always allowed. Of the parts nothing is said after an
//!   error. That they are gone, and that part 0 was started but isn't finished, is to be read;
//! - that a tool returns from a call;
//! - in which cause a run ends: each but `Memory` is the one that the definitions give, and none is ruled out;
//! - what a call told that found no memory;
//! - all of the order in which calls come. A record doesn't say how many calls came before a start, and the records of two
//!   parts have no order between them. That part 0 is started first, and that parts are called in the order of the
//!   positions and none after part 0 is finished, is to be read in `src/`.
//!
//! The must-fail edits try wrong bodies.
#![tactic(auto)]

mod edges;
mod ran;
mod serial;
mod serial_run;

pub use edges::{Start, finalize_first, initialize_first};
pub use omp_machine::Limits;
pub use ran::{Memory, Ran};
pub use serial::run_serial;
