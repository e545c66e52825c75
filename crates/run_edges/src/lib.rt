//! The edges of a run: where bytes come from and where they go.
//!
//! A [`Source`] gives bytes and a [`Sink`] takes them. Contracts see each of them as the bytes that it has left or
//! holds, where it tells them, and as a count of faults that never falls. So a fault that is answered has a cause
//! that the caller can see: the count of the object that was handed in rose, or stands at its last value.
//!
//! The sources and sinks in memory tell their bytes and follow a script, so that a caller can be tried at each
//! failing call. [`StdSource`] and [`StdSink`] adapt std's readers and writers: they tell no content, and are trusted.
#![tactic(auto)]

mod mem_sink;
mod mem_source;
mod pure_source;
mod reading;
mod script;
mod sink;
mod source;
mod std_sink;
mod std_source;
mod std_stream;
mod writing;

pub use mem_sink::{MemSink, Memory};
pub use mem_source::MemSource;
pub use pure_source::PureSource;
pub use reading::{ReadAllFault, read_all};
pub use script::Script;
pub use sink::{Sink, Took};
pub use source::{Got, Source};
pub use std_stream::{StdSink, StdSource, StdStream};
pub use writing::{WriteFault, write_all};
