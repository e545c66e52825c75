//! A part that was asked for its registrations before it is handed to a run.

ghost use Rattle.tool_profiled.specs.Asking.{AskedFor};

use ompt_calls::{Call, Snapshot};
use tool_api::{Registrar, Response, ToolPart};

/// A part that was asked for its registrations. It passes each call on to the part that it holds.
///
/// It stands for a record with a mark, which is the first start of the record. Where the mark's answer is 0, nothing is said of the part
/// that it holds. Else that part stands for the record without the mark.
#[derive(Drop)]
pub struct Asked<P>(pub P);

impl<P: ToolPart> ToolPart for Asked<P> {
    ghost stands_for = { λ asked h. AskedFor P.stands_for asked.0 h };

    ghost same = { λ asked other. P.same asked.0 other.0 };

    ghost same_itself = { λ asked. P.same_itself asked.0 };

    ghost same_onward = { λ first second third one other. P.same_onward first.0 second.0 third.0 one other };

    fn initialize(&mut self, registrar: &mut Registrar) -> u32 {
        self.0.initialize(registrar)
    }

    fn callback(&mut self, seq: u32, thread: u8, call: &Call, snapshot: &Snapshot) -> Response {
        self.0.callback(seq, thread, call, snapshot)
    }

    fn finalize(&mut self) {
        self.0.finalize();
    }
}
