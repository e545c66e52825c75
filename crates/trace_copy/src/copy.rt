//! Reading a trace and writing it again.

ghost use Rattle.std.specs.Prelude.{◌≡◌, ◌≢◌};
ghost use Rattle.run_edges.specs.Edges.{Rose};
ghost use Rattle.trace_copy.specs.Copying.{HasCopied};

use crate::copied::Copied;
use crate::copier::Copier;
use crate::form::Form;
use crate::put::put_last;
use run_edges::{Sink, Source};
use std::alloc::Global;
use trace_format::{ReadEnd, read_items};

/// Reads a trace to its end, and writes what is said of each item in this form as soon as the item is whole. The line of the end mark comes once the
/// input has come to its end.
pub fn copy_trace<S: Source, O: Sink>(
    alloc: Global,
    form: Form,
    source: &mut S,
    out: &mut O,
) -> Copied
    ensures copied { HasCopied form result (S.left source.old) (S.left source.new) (O.held out.old) (O.held out.new) }
    ensures memory { form ≡ Form.SecondVersion → result ≢ Copied.Memory }
    // Each fault was counted, and no count rose without one.
    ensures read { result ≡ Copied.ReadFault → Rose (S.faults source.old) (S.faults source.new) }
    ensures write { result ≡ Copied.WriteFault → Rose (O.faults out.old) (O.faults out.new) }
    ensures unread { result ≢ Copied.ReadFault → S.faults source.new ≡ S.faults source.old }
    ensures steady { result ≢ Copied.WriteFault → O.faults out.new ≡ O.faults out.old }
{
    let mut copier = Copier {
        alloc,
        form,
        end: None,
        out,
    };
    match read_items(source, &mut copier) {
        ReadEnd::Whole => match put_last(form, copier.end, copier.out) {
            Ok(()) => Copied::Whole,
            Err(stop) => stop,
        },
        ReadEnd::Refused(refusal) => Copied::Refused(refusal),
        ReadEnd::ReadFault => Copied::ReadFault,
        ReadEnd::Stopped(stop) => stop,
    }
}
