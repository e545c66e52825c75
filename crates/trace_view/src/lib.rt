//! Pictures of a trace.
//!
//! [`view_items`] reads a trace from a source, and writes each item in an [`ItemStyle`], as it goes. A breach of a rule doesn't hinder it.
//! `Names` is a line for each event and one for the end mark: numbers are written by the names that OMPT's header has for them, and places as
//! `line:column`. `Chrome` is the Trace Event Format, which trace viewers open: an array of JSON with an object for each mark of an event.
//! [`view_picture`] reads a trace that is nested, and writes a [`Picture`] of it. `Tasks` is its task tree in the language DOT of Graphviz: a
//! box for each task, with how many events are charged to it, and a longest chain in bold. `Timeline` shows the states of its threads over the
//! run in the language SVG: a row for each thread, in the colours of its states, with a tick where it goes to another task. `Waits` is a table
//! of its waits: for each construct and each thread how many there were, and how many positions they took. [`dot_text`], [`svg_text`] and
//! [`waits_text`] are these of a trace in memory.
//!
//! The definitions stand in `specs/`: `Names` has the names of numbers, `NamedLines` the lines, `Chrome` the marks and their objects, `ItemStyles`
//! what is written by style, `Slices` which slices are open on a thread, `Dot` the picture of the tasks, `Svg` that of the states, `Waits` the
//! table, and `ViewingItems` and `Drawing` what was read and written, by how it ended. `Naming`, `Marking`, `Bold`, `Cells` and `WaitTallies`
//! serve the proofs.
//!
//! Proved by the contract of [`view_items`]:
//!
//! - at `Whole` the whole input is a trace, and it was written in this style, and nothing else;
//! - at `Refused` the input is refused so (`trace_format`), or is cut; at `ReadFault` a read failed, and was counted. What was written is the
//!   text of the items that are whole in what was taken. That of the end mark is written as soon as it is whole, also where a byte too many
//!   stands behind it;
//! - at `WriteFault` a write failed, and was counted; at `Memory` there was none for a text. What was written is a front of the texts;
//! - it never answers `Broken`, and it returns, as `trace_format::read_items` does.
//!
//! Proved by the law [`slices_nest`]: of a trace that is nested, each mark that ends a slice of a thread has the name of the newest slice that is
//! open on the thread, by the marks of its earlier events; and where main returned no slice is open on any thread after all events.
//!
//! Proved by the contract of [`view_picture`]:
//!
//! - at `Whole` the whole input is a trace that is nested, and the picture of it was written (`IsPicture`). At `WriteFault` a write failed, and was
//!   counted, and a front of one was written;
//! - of the tasks it is one with the tasks, the work and the span of `tool_tasks`, and bold what a chain goes through that is as long as any. Of the
//!   states it is `svg_of` of the events and the columns, so there is one;
//! - the table of waits (`IsWaitTable`) has a line for each place, cause and thread with a wait that began, and no other, by rising place, cause and
//!   thread. It tells how many began, how many positions they took until their ends, and how many have none. What a wait took is told by sums: the
//!   positions of the ends, less those of the begins;
//! - at `Refused`, `Broken` and `ReadFault` it is as `tool_tasks::read_nested` says, and at these and at `Memory` nothing was written.
//!
//! Proved by the contract of [`svg_text`]: the text is `svg_of`, and has at most 80,000 bytes where there are at most 200 columns, however long the
//! trace is.
//!
//! The memory of [`view_items`] doesn't grow with the trace: that isn't proved, but plain in the code. Want of memory is free. That what is
//! written in the style `Chrome` is JSON is tested, and neither that a viewer opens it nor that Graphviz and viewers of SVG read the pictures is
//! proved.
#![tactic(auto)]

mod bold;
mod cells;
mod chrome;
mod dot;
mod drawing;
mod item_style;
mod item_writer;
mod label;
mod laws;
mod mark;
mod marks;
mod named_call;
mod named_lines;
mod number_names;
mod paths;
mod picture;
mod shades;
mod svg;
mod viewed;
mod viewing_items;
mod wait_ends;
mod wait_tallies;
mod waits;

pub use dot::dot_text;
pub use drawing::view_picture;
pub use item_style::ItemStyle;
pub use laws::slices_nest;
pub use picture::Picture;
pub use svg::svg_text;
pub use viewed::Viewed;
pub use viewing_items::view_items;
pub use waits::waits_text;
