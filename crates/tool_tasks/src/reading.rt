//! Reading a nested trace whole.

ghost use Rattle.std.specs.Prelude.{◌≡◌, ◌≢◌, Err, IfOk};
ghost use Rattle.run_edges.specs.Edges.{Rose};
ghost use Rattle.tool_tasks.specs.Answering.{HasReadNested};
ghost use Rattle.trace_check.specs.Nested.{Nested};
ghost use Rattle.trace_format.specs.Validity.{IsTrace};

use crate::collector::Collector;
use crate::unread::Unread;
use run_edges::Source;
use std::alloc::Global;
use trace_format::{ReadEnd, Trace, read_items};

/// Reads a trace to its end, and gives it where it is nested. What is no trace is refused, also where a rule is broken before.
pub fn read_nested<S: Source>(alloc: Global, source: &mut S) -> Result<Trace, Unread>
    ensures has_read { HasReadNested result (S.left source.old) (S.left source.new) }
    ensures valid { IfOk result (λ trace. IsTrace trace) }
    ensures nested { IfOk result (λ trace. Nested trace.header trace.events trace.end) }
    // A fault was counted, and no count rose without one.
    ensures read { result ≡ Err Unread.ReadFault → Rose (S.faults source.old) (S.faults source.new) }
    ensures unread { result ≢ Err Unread.ReadFault → S.faults source.new ≡ S.faults source.old }
{
    let mut collector = Collector::new(alloc);
    match read_items(source, &mut collector) {
        ReadEnd::Whole => match collector.judge(alloc) {
            Ok(()) => Ok(collector.into_trace()),
            Err(unread) => Err(unread),
        },
        ReadEnd::Refused(refusal) => Err(Unread::Refused(refusal)),
        ReadEnd::ReadFault => Err(Unread::ReadFault),
        ReadEnd::Stopped(_) => Err(Unread::Memory),
    }
}
