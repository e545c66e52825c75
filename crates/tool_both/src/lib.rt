//! Two tools in one, each with its own registrations.
//!
//! [`Masks::ask`] calls `initialize` on two tools and keeps what each registered and answered. [`Both`] is a
//! [`ToolPart`](tool_api::ToolPart) that holds both tools. It registers what they registered together, and tells each of the events that
//! it has registered itself. Where both store into one word, the second tool's store counts.
//!
//! An event has at most three stores. So the reply of a [`Both`] has the stores of the first tool and then those of the second one, without
//! each whose word is stored into again later, and of these the last three. That is `both_stores`.
//!
//! Where the first tool heard of an event and the second one found no memory for it, no record of both could have the event, and none could
//! be without it. From then on a [`Both`] isn't whole: each further `callback` finds no memory, and calls no tool.
//!
//! Proved by the contracts of `impl ToolPart for Both`, over `BothFor` of `specs/Joined.antt`. A `Both` stands for a record exactly where
//! each of its tools stands for a record of its own, and the three go together. That is `Joins`, with these rules:
//!
//! - the first tool heard of exactly the events of the record that are in its mask, the second one likewise, in the same order, and with the
//!   same position, thread, call and snapshot. Where the `Both` isn't whole, the first tool heard of one event more, at the end;
//! - each has its own stores of an event, and none where it wasn't told. The record of both has `both_stores` of the two;
//! - each `initialize` of both answered 1 where one of the tools is active, else 0, and left registered what the tools registered
//!   together. It calls no tool;
//! - the record has the starts of the tools within it: first what the masks say, then those of each tool's record;
//! - a tool that is active is finished with both, after as many calls as it had heard. Any other one is never finished;
//! - a callback that found no memory in a tool found none in both. So a record of which no call is unheard is one of a `Both` that is whole.
//!
//! Proved by the contracts of the functions that are named:
//!
//! - [`Masks::ask`] calls `initialize` once on each tool. A mask is what that tool registered, and 0 where it answered 0. Each callback in
//!   it is one that is called always;
//! - [`Both::new`] stands for a record without calls where each tool stands for one, and [`Both::split`] hands both tools back, each of
//!   which stands for such a record;
//! - [`Both::whole`] is what the records say;
//! - each call keeps `same` of both tools, and [`Both::new`] and [`Both::split`] give these very tools;
//! - [`each_hears_its_own`] is a law: a tool's record is that of both without the events that aren't in its mask.
//!
//! That a `Both` finds memory where its tools do isn't said by a clause: tests show it. Those in `test_calls` compare what each tool heard
//! and what both replied with values written out by hand. The must-fail edits try wrong bodies.
#![tactic(auto)]

mod both;
mod joined_reply;
mod laws;
mod masks;

pub use both::Both;
pub use laws::each_hears_its_own;
pub use masks::Masks;
