//! A part that a runtime is handed.

ghost use Rattle.tool_api.specs.Handed.{HandedFor, SameHanded, handed-itself, handed-onward};

use crate::part::{Response, ToolPart};
use crate::quiet::Quiet;
use crate::registrar::Registrar;
use ompt_calls::{Call, Snapshot};

/// A tool, or none. It passes each call to the part that it holds, and stands for what
/// that part stands for.
#[derive(Drop)]
pub enum Handed<G> {
    /// A tool.
    Guest(G),
    /// No tool: the part that does nothing.
    Quiet(Quiet),
}

impl<G: ToolPart> ToolPart for Handed<G> {
    ghost stands_for = { HandedFor G.stands_for };

    ghost same = { SameHanded G.same };

    ghost same_itself = { handed-itself G.same G.same_itself };

    ghost same_onward = { handed-onward G.same G.same_onward };

    fn initialize(&mut self, registrar: &mut Registrar) -> u32 {
        match self {
            Handed::Guest(guest) => guest.initialize(registrar),
            Handed::Quiet(quiet) => quiet.initialize(registrar),
        }
    }

    fn callback(&mut self, seq: u32, thread: u8, call: &Call, snapshot: &Snapshot) -> Response {
        match self {
            Handed::Guest(guest) => guest.callback(seq, thread, call, snapshot),
            Handed::Quiet(quiet) => quiet.callback(seq, thread, call, snapshot),
        }
    }

    fn finalize(&mut self) {
        match self {
            Handed::Guest(guest) => guest.finalize(),
            Handed::Quiet(quiet) => quiet.finalize(),
        }
    }
}
