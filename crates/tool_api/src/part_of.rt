//! A tool as a part.

ghost use Rattle.std.specs.Prelude.{⊤};

use crate::guest_tool::GuestTool;
use crate::part::{Response, ToolPart};
use crate::registrar::Registrar;
use ompt_calls::{Call, Snapshot};

/// A tool as a part: `tool_both` joins parts. It hands each call on to the tool, and stands for what the tool stands for.
#[derive(Drop)]
pub struct PartOf<T>(pub T);

impl<T: GuestTool> ToolPart for PartOf<T> {
    ghost stands_for = { λ part h. T.stands_for part.0 h };

    ghost same = { λ part other. ⊤ };

    ghost same_itself = { λ part. tt };

    ghost same_onward = { λ first second third one other. tt };

    fn initialize(&mut self, registrar: &mut Registrar) -> u32 {
        self.0.initialize(registrar)
    }

    fn callback(&mut self, seq: u32, thread: u8, call: &Call, snapshot: &Snapshot) -> Response {
        self.0.callback(seq, thread, call, snapshot)
    }

    fn finalize(&mut self) {
        self.0.finalize();
    }
}
