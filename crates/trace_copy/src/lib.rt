//! A trace that is read from a source and written again: as lines, or in the second version of the format.
//!
//! [`copy_trace`] reads the items of a trace (`trace_format::read_items`), and writes what it says of each as soon as the item is whole.
//! The definitions stand in `specs/`: `Written` has what is written of a trace and of its items, `Copying` what the call has read and
//! written, by how it ended. `Ending` serves the proofs.
//!
//! Proved by the contract of [`copy_trace`]:
//!
//! - at `Whole` the whole input is a trace, and what was written is what is defined of this trace: a line for each event and one for the
//!   end mark, or the trace in the second version. The line of the end mark comes only then;
//! - at `Refused` the input is refused so (`trace_format`), or is cut; at `ReadFault` a read failed, and was counted. What was
//!   written is that of all items that are whole in what was taken;
//! - at `WriteFault` a write failed, and was counted; what was written is a front of what is defined. So it is at `Memory`, which isn't
//!   answered for the second version;
//! - the call returns, as `read_items` does.
//!
//! [`line_of_end`] is the line of an end mark, which others write too, and [`push_number`] adds a number to such a line.
//!
//! Its memory doesn't grow with the trace: that isn't proved, but plain in the code.
#![tactic(auto)]

mod copied;
mod copier;
mod copy;
mod form;
mod put;

pub use copied::Copied;
pub use copy::copy_trace;
pub use form::Form;
pub use put::{line_of_end, push_number};
