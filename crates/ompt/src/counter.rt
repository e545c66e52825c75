//! A guest that counts its calls.

ghost use Rattle.std.specs.Prelude.{◌≡◌};
ghost use Rattle.tool_api.specs.Record.{Record, initialized, told, finalized};
ghost use Rattle.ompt.specs.Counting.{CountsCalls};

use ompt_calls::{Call, Reply, Snapshot};
use tool_api::{ACTIVE, GuestTool, Registrar, Response};

/// A tool that registers each callback of the profile and counts the calls that it gets. That it stores nothing is to be read.
#[derive(Drop)]
pub(crate) struct Counter {
    /// How many calls there were, at most 2^64 - 1.
    calls: u64,
}

impl Counter {
    /// A counter of no calls.
    pub fn new() -> Counter
        ensures { result.calls ≡ 0 }
    {
        Counter { calls: 0 }
    }
}

impl GuestTool for Counter {
    ghost stands_for = { λ tool h. CountsCalls tool.calls h };

    fn initialize(&mut self, registrar: &mut Registrar) -> u32 {
        registrar.set_profile();
        ACTIVE
    }

    fn callback(&mut self, _seq: u32, _thread: u8, _call: &Call, _snapshot: &Snapshot) -> Response {
        self.calls = self.calls.saturating_add(1);
        Ok(Reply::none())
    }

    fn finalize(&mut self) {}
}
