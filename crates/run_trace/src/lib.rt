//! The trace of a run: what a recorded run is written as.
//!
//! [`trace_of`] makes the trace of a run from how it ended and the events that were heard of it. The definitions stand in
//! `specs/TraceOf.antt`. Proved by the contracts of the functions that are named:
//!
//! - [`trace_of`] is the trace of that definition;
//! - [`runs_have_traces`] is a law of the definitions: what each legal history comes to is a trace of the format (`trace_format`), once
//!   its numbers fit their types. So a run that was recorded can be written.
#![tactic(auto)]

mod laws;
mod of_run;

pub use laws::runs_have_traces;
pub use of_run::trace_of;
