//! The format of traces: what a recorded run is written as, and how it is read in any pieces.
//!
//! A [`Trace`] is a header, events and an end mark. These are its [`Item`]s. [`write_trace`] writes a trace and [`write_item`]
//! one item, each item as one piece. [`valid`] says whether a trace can be. A [`Reader`] takes bytes in pieces and gives each
//! item with its last byte, or a [`Refusal`] with the last byte of the first field that may not stand where it does.
//! [`read_items`] reads a source to its end, and hands each item on to a [`Taker`] as soon as it is whole. The second version of
//! the format is what runs are written in, and both are read. docs/traces.md has the format, field by field.
//!
//! The definitions that are to be believed stand in `specs/`: `Fields` has the fields of a trace with their bytes, `Validity`
//! which traces there are and what each is written as, `Refusing` where bytes are refused, as a statement on all traces that
//! begin so, `Items` which items are whole in bytes, `Taking` what a reader has taken and given, `Inputs` what was read of a
//! source, and `Migrating` what a trace is in the second version. The other files of `specs/` say how the code goes from field to
//! field and serve the proofs: `Accepting`, `Decoding`, `Reached`, `Flat`, `Holding` and `Handing`.
//!
//! Proved by the contracts of the functions that are named:
//!
//! - [`valid`]: true exactly of the traces;
//! - [`kinds_of`]: the kinds of a callback's arguments, by its number;
//! - [`write_item`] and [`write_trace`] append what the item or the trace is written as, of every item and every trace, or at a
//!   write fault a front of it;
//! - [`Reader::feed`] and [`Reader::end`], for all that was taken before: the items given are those whose last byte was taken,
//!   whatever the pieces; bytes are refused exactly where the definition has it, with the last byte of the field that is wrong,
//!   and then always; the end is `Ok` exactly where the bytes are a whole trace;
//! - [`read_items`], for every source and every taker: the taker took the items that are whole in what was taken of the input, each
//!   once and in their order. At `Whole` the whole input is a trace, at `Refused` it is refused so, at `ReadFault` a read failed and
//!   was counted, and at `Stopped` the taker stopped at the last item. It returns: each read takes a byte or ends it, and no bytes
//!   without a refusal are longer than the longest trace;
//! - [`one_spelling`], [`one_refusal`], [`never_refused`], [`longest`] and [`migrated_once`] are laws of the definitions.
//!
//! Neither writing nor reading takes memory. That each item is one piece is tested alone (`test_traces`). How fast the calls are
//! isn't proved.
#![tactic(auto)]

mod arguments;
mod checking;
mod decode;
mod field;
mod item;
mod kept;
mod kind;
mod laws;
mod next;
mod piece;
mod read_end;
mod reader;
mod reading;
mod refusal;
mod room;
mod taker;
mod test;
mod trace;
mod writing;

pub use checking::valid;
pub use field::Field;
pub use item::Item;
pub use kind::{Kind, kinds_of};
pub use laws::{longest, migrated_once, never_refused, one_refusal, one_spelling};
pub use read_end::ReadEnd;
pub use reader::{Reader, Taken};
pub use reading::read_items;
pub use refusal::{Reason, Refusal};
pub use taker::Taker;
pub use trace::{
    EndMark, Events, FIRST_VERSION, Header, MIGRATED, RECORDED, SEQ_LIMIT, Trace, VERSION,
};
pub use writing::{write_item, write_trace};
