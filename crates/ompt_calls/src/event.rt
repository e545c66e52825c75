//! The record of an event.

ghost use Rattle.std.specs.Prelude.{◌≡◌};

use crate::call::Call;

/// What is recorded of an event that a tool heard.
#[derive(Clone, Copy, PartialEq, Eq)]
pub struct EventRecord {
    /// The position of the event in the history of its run, from 0.
    pub seq: u32,
    /// The thread's number, from 0.
    pub thread: u8,
    /// The thread's `ompt_state_t` at the event.
    pub state: u16,
    /// What the thread waited for (`ompt_wait_id_t`), or 0.
    pub wait_id: u32,
    /// The callback with its arguments.
    pub call: Call,
}
