//! The calls that a tool hears: OMPT's callbacks with their arguments, and the line that is written of each.
//!
//! A runtime tells its tool of each event by a callback. A [`Call`] is a callback with its arguments, and its line is
//! how it is shown: the sequence number, the thread, the callback's name and its arguments in order, with one space
//! between and a newline at the end, as `0 0 thread_begin 1 1:0`.
//!
//! Addresses are replaced by numbers: a data word is named by the identity of its thread, parallel region or task,
//! and identity 0 stands for NULL. A frame is two numbers, with 0 where there is none.
//!
//! Proved for every call, over the definitions of `specs/`:
//!
//! - `{}` of a [`Word`] writes exactly the bytes of `word_text`, `{}` of a [`Frame`] those of `frame_text`, `{}` of a
//!   [`CodePlace`] those of `place_text`, and `{}` of a [`Call`] those of `call_text`;
//! - [`Call::arguments`] is `arguments_of`, the one table of arguments, and [`Call::name`] is `name_of`: a line is made of both;
//! - where it finds memory, [`line_of`] returns exactly the bytes of `line_text`;
//! - [`Call::number`] is `number_of`, the value in `ompt_callbacks_t`;
//! - [`Reply::none`] stores nothing, and [`Reply::store`] one word at one place;
//! - the inquiries of a [`Snapshot`] answer what it has: [`Snapshot::get_task_info`] and
//!   [`Snapshot::get_parallel_info`] the level that is asked for, and `None` exactly where there is none, as `task_info`
//!   and `parallel_info` say; [`Snapshot::target`] the word at a place, as `target_of` says;
//! - [`is_registered`] says whether a number is in a mask, for every number.
//!
//! The macro [`by_callback!`] is the table of the callbacks: a row has a callback's number, its variant and its arguments, and the macro that
//! it is given makes a `match` of the rows. [`Call::number`] and [`Call::arguments`] are made by it, and so is what reads a trace.
//!
//! An [`EventRecord`] is what is kept of an event that a tool heard.
//!
//! A [`Sequence`] is a vector that contracts see as its list, here and in the crates above.
//!
//! A [`Reply`] has the stores of a tool. Which of them take effect, and in which words, is the definition `stores_of`. What
//! a tool hears of an event, with these stores, is the definition `Item`.
//!
//! Tests in `test_calls` compare lines and inquiries with what was written out by hand, since a definition cannot check itself.
#![tactic(auto)]

mod argument;
mod call;
mod code_place;
mod event;
mod line;
mod mask;
mod reply;
mod same_call;
mod sequence;
mod snapshot;

pub use argument::{Argument, Arguments};
pub use call::{Call, Frame, Word};
pub use code_place::CodePlace;
pub use event::EventRecord;
pub use line::{Memory, line_of};
pub use mask::is_registered;
pub use reply::{Reply, Store, WordAt};
pub use sequence::Sequence;
pub use snapshot::{RegionLevel, RegionLevels, Snapshot, Target, TaskLevel, TaskLevels};
