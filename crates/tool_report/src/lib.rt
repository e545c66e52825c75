//! Parts of a tool that keep what they are told, and what is written of it.
//!
//! Three [`ToolPart`](tool_api::ToolPart)s register each callback of the profile. A [`Recorder`] keeps a record of each call: its
//! position in the history, its thread, its state, what it waits for, and its callback with the arguments. A [`Profile`] keeps how many
//! calls of each callback there were, and a [`Timeline`] the position and the state of each, and no more than that. A runtime gives each
//! thread a part of its own. [`merge`] joins what recorders kept, by position, [`lines_text`] writes a line for each record,
//! [`profile_text`] the counts of profiles, and [`timeline_text`] the states of timelines. A [`Lister`] is a recorder by another name.
//!
//! [`generated_text`] is a program of a given length, and [`summary_text`] what is written of a run of it.
//!
//! Proved by the contracts of `impl ToolPart` of the three, over `KeeperFor` of `specs/KeeperRelation.antt`. A part stands for a record of its
//! calls exactly where
//!
//! - each `initialize` answered 1, and left the callbacks of the profile registered, [`PROFILE_MASK`](omp_codes::PROFILE_MASK): none
//!   less, and none more;
//! - it keeps of the calls of `callback`, each once and in order, what it is to keep, and nothing else;
//! - none of those calls was answered by a store that took effect;
//! - no tool is recorded within the part, which holds none.
//!
//! A `callback` that found no memory is an error, and leaves the part as it was; for a profile that is a count past its greatest value.
//! That a recorder and a timeline find memory where there is some isn't proved: tests show it.
//!
//! Proved by the contracts of the functions that are named:
//!
//! - [`Recorder::new`], [`Profile::new`] and [`Timeline::new`] keep what is kept of no calls, and [`Recorder::events`],
//!   [`Profile::counts`] and [`Timeline::moments`] give what is kept. `proofs/Fresh.antt` shows that what keeps nothing stands for a
//!   record in which nothing was called;
//! - [`merge`] has the events that the recorders share, and [`lines_text`] their lines: events whose positions rise, of which each
//!   recorder has those of its own thread, in order. That is `AreShared` of `specs/Order.antt`. Where the recorders share none so,
//!   nothing is said of the list and the text;
//! - [`profile_text`] and [`timeline_text`] are `profile_of` and `timeline_of` of the events that the parts share so (`AreKept`), which are
//!   functions of one list of events. [`names_are_those_of_lines`] is a law: the names of a profile are those of the lines;
//! - [`generated_text`] is the program of `specs/Generator.antt`, and [`summary_text`] the summary of its run.
//!
//! What a line says is in `specs/` of `ompt_calls`. The records are sorted by std's sort, so the cost is n log n for n
//! records. The cost of a profile's text doesn't grow with the run, and that of a timeline grows as its events.
//!
//! Tests in `test_team_runs` compare the mask, records and lines with values written out by hand. The must-fail edits try wrong
//! bodies.
#![tactic(auto)]

mod generator;
mod lines;
mod merging;
mod profile;
mod profile_report;
mod recorder;
mod shipped;
mod timeline;
mod timeline_report;

pub use generator::{generated_text, summary_text};
pub use lines::lines_text;
pub use merging::{Memory, merge};
pub use profile::Profile;
pub use profile_report::{names_are_those_of_lines, profile_text};
pub use recorder::{Lister, Recorder};
pub use timeline::{Moment, Timeline};
pub use timeline_report::timeline_text;
