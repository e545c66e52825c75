//! A part as a guest.

use crate::guest_tool::GuestTool;
use crate::part::{Response, ToolPart};
use crate::registrar::Registrar;
use ompt_calls::{Call, Snapshot};

/// A part as a guest: it hands each call on to the part, and stands for what the part stands for. So two tools in one, which are a part,
/// can be the guest of a thread.
#[derive(Drop)]
pub struct GuestOf<P>(pub P);

impl<P: ToolPart> GuestTool for GuestOf<P> {
    ghost stands_for = { λ guest h. P.stands_for guest.0 h };

    fn initialize(&mut self, registrar: &mut Registrar) -> u32 {
        self.0.initialize(registrar)
    }

    fn callback(&mut self, seq: u32, thread: u8, call: &Call, snapshot: &Snapshot) -> Response {
        self.0.callback(seq, thread, call, snapshot)
    }

    fn finalize(&mut self) {
        self.0.finalize();
    }
}
