//! Whether a trace is nested: fourteen rules on its events, and the first that it breaks.
//!
//! A [`Checker`] is told of the events of a trace, one after the other, and then of its end. It keeps what the trace has open, and nothing
//! else of its events: the threads that began, the brackets that are open on them, the regions that have no end yet with the implicit
//! tasks that these had, the created tasks that aren't complete, and the wait identifiers that are held.
//!
//! [`check_trace`] reads a trace from a source (`trace_format::read_items`), and says what a checker says of it.
//!
//! The definitions that are to be believed stand in `specs/`: `Brackets` has what can be open on a thread, `Before` what the events before
//! one tell, `Rules` the rules on events, `Nested` the rules on the whole trace, which traces are nested, and the first breach, and
//! `Opened` how much a trace has open. They speak of the list of the events alone. `Answering` has what was read of a source, by how the
//! checking ended. `Checking` says what a checker keeps, for the contracts of the checker and for the proofs, and `Items` what the items of a
//! trace tell it, for the proofs.
//!
//! The rules judge what was recorded, and not how: they know neither the machine that ran the program nor its text.
//!
//! Proved by the contracts of the functions that are named. `Checks` of `specs/Checking.antt` says of a checker that it was told of these
//! events and keeps what they have open:
//!
//! - [`Checker::new`] was told of none, and after [`Checker::step`] it was told of one event more, if positions rise; where there was no
//!   memory, of those before;
//! - [`Checker::verdict`] is `Ok` exactly where the trace is nested, and else the first breach: the least by position, and then by rule;
//! - [`Checker::kept`] is the sum of the lengths of its lists, which is at most what the trace has open, and 0 once the mask or an event
//!   breaks a rule.
//!
//! Beside these:
//!
//! - [`check_trace`] answers `Nested` only where the whole input is a trace that is nested, `Broken` only where it is a trace with this first
//!   breach, and `Refused` only where it is none, whatever rule was broken before; at `ReadFault` a read failed, and was counted. It returns,
//!   as `trace_format::read_items` does. Want of memory is free;
//! - [`migrated_alike`] is a law: a trace is nested where what it is migrated to is, and they have the same first breach.
//!
//! How much memory an entry takes isn't proved, nor that [`check_trace`] keeps no more than its checker and one piece: that is plain in its
//! code.
#![tactic(auto)]

mod bracket;
mod breach;
mod change;
mod checked;
mod checker;
mod kept;
mod keys;
mod laws;
mod learning;
mod leaving;
mod putting;
mod reading;
mod rules;
mod teams;
mod things;
mod told;

pub use bracket::Bracket;
pub use breach::Breach;
pub use change::{Change, change_of};
pub use checked::Checked;
pub use checker::Checker;
pub use laws::migrated_alike;
pub use reading::check_trace;
