//! The task tree of a nested trace, how many of its events each task has, and its span.
//!
//! [`read_nested`] reads a trace from a source (`trace_format`), and gives it where it is nested (`trace_check`). A [`Forest`] is made of the
//! events of such a trace: [`Forest::of`]. It has a [`TaskNode`] for each task, with the task's parent, its first child and its next sibling,
//! by identity, and with how many events are charged to it. [`Forest::text`] writes it.
//!
//! An event is charged to the task that its thread runs. The begin of an implicit or initial task and the switch to an explicit one put the
//! task on the thread's stack, and are charged to it; its end and its completion take it off, and are charged to it too; and every other
//! event is charged to the task on top. Where the stack is empty, as at the begin of a thread, it is charged to none. The **work** of a trace is
//! how many events are charged to any.
//!
//! The tasks are task 1, the initial one, and each that an implicit task's begin or a creation names. The parent of an implicit task is the
//! encountering task of its region, and that of an explicit one the task that created it. The initial task has none, which is told as 0.
//! The children of a task stand in the order of their identities.
//!
//! A charged event **leads** to a later one in eight cases, which docs/tasks.md lists. A **chain** is a list of charged events of which each
//! leads to the next, and the **span** of a trace is the length of a longest chain.
//!
//! The definitions that are to be believed stand in `specs/`: `Charge` says which task an event is charged to, `Tree` which tasks there are,
//! with their parents and links, `Leads` has the eight cases, a line each, `Span` says what a chain is, and the span, `Text` what is written of
//! events, and `Answering` what was read of a source, by what was answered. They speak of the list of the events alone. The others serve the
//! contracts and the proofs. `Keys` says the eight cases as the code has them: an event leads to a later one where it gives a key that the later
//! one takes. [`leads_by_keys`] is the law that the two agree on all events. `Reaching` says how long a chain to an event is, `Holding` what
//! a forest holds of a trace, and `Collecting` what is collected of the items of one.
//!
//! Proved by the contracts of the functions that are named. `IsForest` of `specs/Holding.antt` says of a forest that it is that of these events:
//!
//! - [`read_nested`] gives a trace only where the whole input is what it is written as, and it is nested. It answers `Broken` only where the
//!   whole input is a trace with this first breach, and `Refused` only where the input is no trace, whatever rule was broken before. At
//!   `ReadFault` a read failed, and was counted. It returns, as `trace_format::read_items` does;
//! - [`Forest::of`] gives the forest of the events of each trace that is nested, or finds no memory;
//! - [`Forest::node`] gives the task with an identity, with all its links, and `None` exactly where there is no such task;
//! - [`Forest::work`] is how many events are charged to a task;
//! - [`Forest::span`] is the span: there is a chain of that length, and no chain is longer;
//! - [`Forest::chain`] gives the positions of a chain of that length, in their order, or finds no memory;
//! - [`Forest::text`] gives the lines with how many tasks there are, the work and the span, and then the line of each task, the trees of its
//!   children behind it, or finds no memory.
//!
//! A count that would pass the greatest number is told as want of memory, which no trace comes to. Want of memory is free. How much memory is taken
//! isn't proved, nor how fast the calls are: that they are linear, but for the searches of maps, and that none recurs, is plain in the code.
#![tactic(auto)]

mod chain_builder;
mod chain_keys;
mod chain_tasks;
mod chains;
mod collector;
mod forest;
mod forest_builder;
mod key;
mod laws;
mod links;
mod making;
mod reaches;
mod reading;
mod stack_step;
mod stacks;
mod text;
mod unread;

pub use forest::{Forest, TaskNode};
pub use key::Key;
pub use laws::leads_by_keys;
pub use making::Making;
pub use reading::read_nested;
pub use stack_step::StackStep;
pub use unread::Unread;
