//! What is known of a thread that is inside a callback.

ghost use Rattle.std.specs.Prelude.{◌≡◌, ◌&&◌, is_some, nat_lt};
ghost use Rattle.omp_model.specs.declared.limits.TheConstants.{STORE_LIMIT};
ghost use Rattle.history_file.specs.RerunProgress.{is_place, waits};

use crate::verdict::HeardCall;
use omp_model::STORE_LIMIT;

/// A thread that is inside a callback.
#[derive(Clone, Copy)]
pub struct Waiting {
    /// How many words its tool has stored so far.
    pub stores: u8,
    /// The position of the callback's event in the history, where the callback is registered.
    pub told: Option<u32>,
}

impl Waiting {
    /// Whether its tool may store into the data word of what was made.
    pub fn may_store(&self) -> bool
        ensures { result ≡ (is_some self.now.told && nat_lt self.now.stores STORE_LIMIT) }
    {
        self.told.is_some() && self.stores < STORE_LIMIT
    }

    /// Whether its callback is registered, and has its event at this position.
    fn is_inside(&self, seq: u32) -> bool
        ensures { result ≡ is_place self.now.told seq }
    {
        match self.told {
            Some(place) => place == seq,
            None => false,
        }
    }
}

/// Whether the call's thread is still inside the callback of the call's event.
pub fn waits(waiting: &[Option<Waiting>], call: &HeardCall) -> bool
    ensures { result ≡ waits waiting.now call.now }
{
    match waiting.get(usize::from(call.thread)) {
        Some(Some(inside)) => inside.is_inside(call.seq),
        _ => false,
    }
}
