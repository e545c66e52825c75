//! What a tool in a box is asked for.

ghost use Rattle.std.specs.Prelude.{◌≡◌, IfOk, OnErr};
ghost use Rattle.ompt_calls.specs.Item.{item_of};
ghost use Rattle.tool_api.specs.Record.{Record, initialized, told, one_unheard, finalized};

use crate::part::Response;
use crate::registrar::Registrar;
use ompt_calls::{Call, Snapshot};

/// A tool that is called through a box, with the calls of a `ToolPart` and its promises on `stands_for`. It is a trait of its own, since a
/// box has no type that a runtime could be written for.
pub trait GuestTool: Drop + Send {
    ghost stands_for: { Self → Record → Type 0 };

    /// Starts the tool, as `ompt_initialize_t` does (OpenMP 5.2, 19.5.1.1). It may register callbacks meanwhile. With
    /// the answer 0 the tool is inactive, and with any other one it is active.
    fn initialize(&mut self, registrar: &mut Registrar) -> u32
        // Nothing is registered yet.
        requires { registrar.old ≡ 0 }
        ensures started { (h : Record) → stands_for self.old h →
            stands_for self.new (initialized h result registrar.new) };

    /// Tells the tool of an event: its position in the history, its thread, and its callback with the arguments. The
    /// snapshot has what can be inquired meanwhile, and the reply what the tool stores.
    fn callback(&mut self, seq: u32, thread: u8, call: &Call, snapshot: &Snapshot) -> Response
        ensures heard { IfOk result (λ reply. (h : Record) → stands_for self.old h →
            stands_for self.new (told h (item_of seq thread call.now snapshot.now reply))) }
        ensures memory { OnErr result ((h : Record) → stands_for self.old h → stands_for self.new (one_unheard h)) };

    /// Finishes the tool, as `ompt_finalize_t` does (OpenMP 5.2, 19.5.1.2).
    fn finalize(&mut self)
        ensures finished { (h : Record) → stands_for self.old h → stands_for self.new (finalized h) };
}
