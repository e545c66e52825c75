//! The guest of one thread: it inquires all that there is to inquire, at each call.

use crate::level_line::line_of;
use crate::lines::Lines;
use crate::storing::Storing;
use ompt_calls::{Call, Snapshot};
use std::alloc::Global;
use std::sync::{Arc, Mutex, Wait};
use tool_api::{ACTIVE, GuestTool, Registrar, Response};

/// The guest of one thread. It registers each callback of the profile. The guests of all threads add to the same lines. Nothing is promised
/// of what these have then, so `stands_for` holds of each record.
#[derive(Drop)]
pub(crate) struct Inquirer<R> {
    runtime: R,
    alloc: Global,
    lines: Arc<Mutex<Lines>>,
    storing: Storing,
}

impl<R> Inquirer<R> {
    /// A guest that adds to these lines. The runtime is there for the lock.
    pub fn new(
        runtime: R,
        alloc: Global,
        lines: Arc<Mutex<Lines>>,
        storing: Storing,
    ) -> Inquirer<R> {
        Inquirer {
            runtime,
            alloc,
            lines,
            storing,
        }
    }
}

impl<R: Wait + Copy + Send> GuestTool for Inquirer<R> {
    ghost use Rattle.std.specs.Prelude.{⊤};

    ghost stands_for = { λ inquirer h. ⊤ };

    fn initialize(&mut self, registrar: &mut Registrar) -> u32 {
        registrar.set_profile();
        ACTIVE
    }

    fn callback(&mut self, seq: u32, thread: u8, call: &Call, snapshot: &Snapshot) -> Response {
        let line = line_of(self.alloc, seq, thread, snapshot)?;
        self.lines.lock(&self.runtime).add(seq, line)?;
        Ok(self.storing.reply_to(seq, call))
    }

    fn finalize(&mut self) {}
}
