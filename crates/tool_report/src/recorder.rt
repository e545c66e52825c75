//! A part that keeps what it is told.

ghost use Rattle.std.specs.Prelude.{◌≡◌, [], ⊤};
ghost use Rattle.tool_report.specs.KeeperRelation.{RecorderFor};

use crate::shipped::{ACTIVE, NOTHING};
use ompt_calls::{Call, EventRecord, Snapshot};
use std::alloc::Global;
use std::marker::Model;
use tool_api::{Registrar, Response, ToolPart};

/// A part that keeps a record of each call of `callback`, in order. Contracts see it as that list.
#[derive(Drop)]
pub struct Recorder {
    /// The records, in the order of the calls.
    events: Vec<EventRecord>,
}

/// What a listing needs is what a recorder keeps.
pub type Lister = Recorder;

impl Model for Recorder {
    ghost use Rattle.std.specs.Prelude.{List};
    ghost use Rattle.ompt_calls.specs.declared.event.EventRecord.{EventRecord};

    ghost Value = { List EventRecord };

    ghost view = { λ recorder. recorder.events.items };
}

impl Recorder {
    /// A recorder that was told nothing yet.
    pub fn new(alloc: Global) -> Recorder
        ensures { result ≡ [] }
    {
        Recorder {
            events: Vec::new(alloc),
        }
    }

    /// The records, in the order of the calls.
    pub fn events(&self) -> &[EventRecord]
        ensures { result.now ≡ self.now }
    {
        self.events.as_slice()
    }
}

impl ToolPart for Recorder {
    ghost stands_for = { RecorderFor };

    ghost same = { λ recorder other. ⊤ };

    ghost same_itself = { λ recorder. tt };

    ghost same_onward = { λ first second third one other. tt };

    fn initialize(&mut self, registrar: &mut Registrar) -> u32 {
        registrar.set_profile();
        ACTIVE
    }

    fn callback(&mut self, seq: u32, thread: u8, call: &Call, snapshot: &Snapshot) -> Response {
        let event = EventRecord {
            seq,
            thread,
            state: snapshot.state,
            wait_id: snapshot.wait_id,
            call: *call,
        };
        self.events.push(event)?;
        Ok(NOTHING)
    }

    fn finalize(&mut self) {}
}
