//! Reading a trace and saying whether it is nested.

ghost use Rattle.std.specs.Prelude.{◌≡◌, ◌≢◌};
ghost use Rattle.run_edges.specs.Edges.{Rose};
ghost use Rattle.trace_check.specs.Answering.{HasChecked};

use crate::checked::Checked;
use crate::told::Told;
use run_edges::Source;
use std::alloc::Global;
use trace_format::{ReadEnd, read_items};

/// Reads a trace to its end, and says whether it is nested. What is no trace is refused, also where a rule is broken before.
pub fn check_trace<S: Source>(alloc: Global, source: &mut S) -> Checked
    ensures checked { HasChecked result (S.left source.old) (S.left source.new) }
    // A fault was counted, and no count rose without one.
    ensures read { result ≡ Checked.ReadFault → Rose (S.faults source.old) (S.faults source.new) }
    ensures unread { result ≢ Checked.ReadFault → S.faults source.new ≡ S.faults source.old }
{
    let mut told = Told::new(alloc);
    match read_items(source, &mut told) {
        ReadEnd::Whole => match told.verdict() {
            Ok(()) => Checked::Nested,
            Err(breach) => Checked::Broken(breach),
        },
        ReadEnd::Refused(refusal) => Checked::Refused(refusal),
        ReadEnd::ReadFault => Checked::ReadFault,
        ReadEnd::Stopped(_) => Checked::Memory,
    }
}
