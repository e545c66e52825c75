//! Telling a part of events that no run has.

use crate::fixture::ONE;
use ompt_calls::{Call, Reply, Sequence, Snapshot};
use std::alloc::Global;
use std::process::Abort;
use tool_api::ToolPart;
use tool_report::Memory;

/// An event: its position, the state of its thread, and its call.
pub(crate) type Heard = (u32, u16, Call);

/// Tells the part of these events of a thread. It stores nothing.
pub(crate) fn hear<R: Abort + AllocGlobal, P: ToolPart>(
    rt: &R,
    part: &mut P,
    thread: u8,
    events: &[Heard],
) -> Result<(), Memory> {
    for (seq, state, call) in events {
        let reply = part.callback(*seq, thread, call, &snapshot_in(rt.alloc(), *state))?;
        assert!(rt; reply == Reply::none(), "at {seq}");
    }
    part.finalize();
    Ok(())
}

/// What can be inquired by a thread in this state, which has no task.
fn snapshot_in(alloc: Global, state: u16) -> Snapshot {
    Snapshot {
        thread: ONE,
        state,
        wait_id: 3,
        tasks: Sequence(Vec::new(alloc)),
        regions: Sequence(Vec::new(alloc)),
        fresh: None,
    }
}

/// A thread begins.
pub(crate) const BEGIN: Call = Call::ThreadBegin {
    kind: 2,
    thread: ONE,
};

/// A thread ends.
pub(crate) const END: Call = Call::ThreadEnd { thread: ONE };

/// Events of a thread that begins and ends.
pub(crate) const BEGIN_AND_END: [Heard; 2] = [(4, 0x001, BEGIN), (8, 0x101, END)];

/// How many calls are many.
const MANY: u32 = 10_000;

/// The part hears a call so often.
pub(crate) fn hear_many<R: Abort + AllocGlobal, P: ToolPart>(
    rt: &R,
    part: &mut P,
) -> Result<(), Memory> {
    let snapshot = snapshot_in(rt.alloc(), 0x001);
    for seq in 0..MANY {
        let _stores_nothing = part.callback(seq, 0, &BEGIN, &snapshot)?;
    }
    Ok(())
}
