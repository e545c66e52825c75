//! A part that keeps when its thread was in which state.

ghost use Rattle.std.specs.Prelude.{◌≡◌, [], ⊤};
ghost use Rattle.tool_report.specs.KeeperRelation.{TimelineFor};

use crate::shipped::{ACTIVE, NOTHING};
use ompt_calls::{Call, Snapshot};
use std::alloc::Global;
use std::marker::Model;
use tool_api::{Registrar, Response, ToolPart};

/// The state of a thread from an event on.
#[derive(Clone, Copy, PartialEq, Eq, Debug)]
pub struct Moment {
    /// The event's position in the history.
    pub seq: u32,
    /// The state of its thread (OpenMP 5.2, 19.4.4).
    pub state: u16,
}

/// A part that keeps the position and the state of each call of `callback`, in order, and nothing else of them. Contracts see it as that list.
#[derive(Drop)]
pub struct Timeline {
    /// The moments, in the order of the calls.
    moments: Vec<Moment>,
}

impl Model for Timeline {
    ghost use Rattle.std.specs.Prelude.{List};
    ghost use Rattle.tool_report.specs.declared.timeline.Moment.{Moment};

    ghost Value = { List Moment };

    ghost view = { λ timeline. timeline.moments.items };
}

impl Timeline {
    /// A timeline that was told nothing yet.
    pub fn new(alloc: Global) -> Timeline
        ensures { result ≡ [] }
    {
        Timeline {
            moments: Vec::new(alloc),
        }
    }

    /// The moments, in the order of the calls.
    pub fn moments(&self) -> &[Moment]
        ensures { result.now ≡ self.now }
    {
        self.moments.as_slice()
    }
}

impl ToolPart for Timeline {
    ghost stands_for = { TimelineFor };

    ghost same = { λ timeline other. ⊤ };

    ghost same_itself = { λ timeline. tt };

    ghost same_onward = { λ first second third one other. tt };

    fn initialize(&mut self, registrar: &mut Registrar) -> u32 {
        registrar.set_profile();
        ACTIVE
    }

    fn callback(&mut self, seq: u32, _thread: u8, _call: &Call, snapshot: &Snapshot) -> Response {
        self.moments.push(Moment {
            seq,
            state: snapshot.state,
        })?;
        Ok(NOTHING)
    }

    fn finalize(&mut self) {}
}
