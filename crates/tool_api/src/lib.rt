//! What a tool and a runtime ask of each other: the registration of callbacks, and the calls that a tool gets.
//!
//! A runtime calls a tool as a [`ToolPart`]: [`ToolPart::initialize`], [`ToolPart::callback`] for each event that the
//! tool has registered, and [`ToolPart::finalize`]. A part keeps a relation, `stands_for`, between itself and a record of
//! its calls: what each call of `initialize` answered and left registered; what each call of `callback` told and which of
//! its stores took effect; for each call of `finalize`, how many calls of `callback` came before it; how many calls of
//! `callback` found no memory; and for each tool within it the calls of `initialize` that are answered on its behalf, which no
//! call of today adds to. Each kind of part defines the relation for itself.
//!
//! Every part promises, for every record that it stands for:
//!
//! - after `initialize`, `callback` and `finalize` it stands for the record with that call at its end;
//! - after a `callback` that found no memory it stands for the record with one more such call, and nothing else changed;
//! - each call keeps `same`, a relation between the part before some calls and the part after them: of a tool in a box, that the box
//!   has the same type of tool in it. A part has it to itself, and it goes on from one to the next.
//!
//! In return it is promised that nothing is registered yet when `initialize` is called. What a part does with a call, and
//! whether it finds memory, is left to its own contracts.
//!
//! Proved by the contracts of each `impl`, over the definitions of `specs/`:
//!
//! - [`PartOf`] hands each call on to a [`GuestTool`], and [`GuestOf`] to a [`ToolPart`]. Each stands for what that one stands for. So a call
//!   that is left out, doubled or answered otherwise isn't proved;
//! - [`Quiet`] leaves nothing registered, answers 0 to `initialize`, stores nothing, and finds memory in each call: that is
//!   `QuietFor`. Its `callback` is never an error;
//! - [`Handed`] stands for what the part that it holds stands for: that is `HandedFor`.
//!
//! Proved for every number, by the contracts of [`Registrar`]:
//!
//! - [`Registrar::new`] has nothing registered;
//! - [`Registrar::set`] answers what `omp_codes` says, and registers the callback exactly where that is `ALWAYS`; all others
//!   stay as they were;
//! - [`Registrar::set_profile`] registers the callbacks of the profile, where nothing is registered yet;
//! - [`Registrar::get`] answers 1 exactly where the callback is registered, and else 0.
//!
//! Each callback that a [`Registrar`] has registered is one that is called always: that is its invariant, and [`Registrar::mask`] says it.
//!
//! Tests in `test_calls` register callbacks, and those of `test_top` run tools in boxes. The must-fail edits try wrong bodies.
#![tactic(auto)]

mod guest_of;
mod guest_tool;
mod handed;
mod part;
mod part_of;
mod quiet;
mod registrar;

pub use guest_of::GuestOf;
pub use guest_tool::GuestTool;
pub use handed::Handed;
pub use part::{ACTIVE, Memory, Response, ToolPart};
pub use part_of::PartOf;
pub use quiet::Quiet;
pub use registrar::Registrar;
