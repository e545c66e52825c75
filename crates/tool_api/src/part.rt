//! What a part of a tool is asked for.

ghost use Rattle.std.specs.Prelude.{◌≡◌, IfOk, OnErr};
ghost use Rattle.ompt_calls.specs.Item.{item_of};
ghost use Rattle.tool_api.specs.Record.{Record, initialized, told, one_unheard, finalized};

use crate::registrar::Registrar;
use ompt_calls::{Call, Reply, Snapshot};

/// The error of a call that found no memory.
pub type Memory = std::alloc::AllocError;

/// What a tool answers to an event: its reply, or that it found no memory.
pub type Response = Result<Reply, Memory>;

/// An answer to `initialize` that makes a tool active: any but 0 does.
pub const ACTIVE: u32 = 1;

/// A tool, or a part of one, as a runtime calls it.
///
/// `stands_for` says which records a part may have behind it. Each call keeps this: a part that stands for a record stands
/// afterwards for the record with that call, and after an error for the record with one more call that found no memory.
/// `same` is a relation of the part's own between what it was before some calls and what it is after them. Each call keeps it, it holds
/// of a part and itself, and it goes on from one to the next.
pub trait ToolPart: Drop + Send {
    ghost stands_for: { Self → Record → Type 0 };

    ghost same: { Self → Self → Type 0 };

    /// Starts the part, as `ompt_initialize_t` does (OpenMP 5.2, 19.5.1.1). It may register callbacks meanwhile. With
    /// the answer 0 the tool is inactive, and with any other one it is active.
    fn initialize(&mut self, registrar: &mut Registrar) -> u32
        // Nothing is registered yet.
        requires { registrar.old ≡ 0 }
        ensures started { (h : Record) → stands_for self.old h →
            stands_for self.new (initialized h result registrar.new) }
        ensures kept { same self.old self.new };

    /// Tells the part of an event: its position in the history, its thread, and its callback with the arguments. The
    /// snapshot has what can be inquired meanwhile, and the reply what the part stores.
    fn callback(&mut self, seq: u32, thread: u8, call: &Call, snapshot: &Snapshot) -> Response
        ensures heard { IfOk result (λ reply. (h : Record) → stands_for self.old h →
            stands_for self.new (told h (item_of seq thread call.now snapshot.now reply))) }
        ensures memory { OnErr result ((h : Record) → stands_for self.old h → stands_for self.new (one_unheard h)) }
        ensures kept { same self.old self.new };

    /// Finishes the part, as `ompt_finalize_t` does (OpenMP 5.2, 19.5.1.2).
    fn finalize(&mut self)
        ensures finished { (h : Record) → stands_for self.old h → stands_for self.new (finalized h) }
        ensures kept { same self.old self.new };

    ghost same_itself: { (part : Self) → same part part };

    ghost same_onward: { (first second third : Self) → same first second → same second third → same first third };
}
