//! A part that does nothing.

ghost use Rattle.std.specs.Prelude.{IfOk, OnErr, IsOk, ⊤};
ghost use Rattle.ompt_calls.specs.Item.{item_of};
ghost use Rattle.tool_api.specs.Record.{Record, QuietFor, told, one_unheard};

use crate::part::{Response, ToolPart};
use crate::registrar::Registrar;
use ompt_calls::{Call, Reply, Snapshot};

/// A part that registers nothing, answers 0 to `initialize`, and stores nothing.
#[derive(Clone, Copy, PartialEq, Eq)]
pub struct Quiet;

impl ToolPart for Quiet {
    ghost stands_for = { QuietFor };

    ghost same = { λ quiet other. ⊤ };

    ghost same_itself = { λ quiet. tt };

    ghost same_onward = { λ first second third one other. tt };

    fn initialize(&mut self, _registrar: &mut Registrar) -> u32 {
        0
    }

    fn callback(&mut self, seq: u32, thread: u8, call: &Call, snapshot: &Snapshot) -> Response
        ensures heard { IfOk result (λ reply. (h : Record) → QuietFor self.old h →
            QuietFor self.new (told h (item_of seq thread call.now snapshot.now reply))) }
        ensures memory { OnErr result ((h : Record) → QuietFor self.old h → QuietFor self.new (one_unheard h)) }
        ensures kept { ⊤ }

        // It takes no memory.
        ensures no_error { IsOk result }
    {
        Ok(Reply::none())
    }

    fn finalize(&mut self) {}
}
