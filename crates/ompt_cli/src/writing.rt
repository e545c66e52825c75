//! What is written of a run, or of what was read, as one text.

ghost use Rattle.std.specs.Prelude.{ℕ, ◌≡◌, ◌≢◌, ◌⊎◌, List, IfErr, IfOk};
ghost use Rattle.ompt_cli.specs.Commands.{CountsFaults, EndsAs, HasWritten, unless_memory};

use crate::end::End;
use omp_model::Cause;
use run_edges::{Sink, write_all};
use std::alloc::AllocError;

/// What was made to be written, unless there was no memory for it.
pub(crate) type Lines = Result<Vec<u8>, AllocError>;

/// Writes what was made of a run that ended in this cause, unless there was no memory for it or the run found none. It answers how the
/// command ends.
pub(crate) fn write_made<O: Sink>(cause: Cause, made: Lines, out: &mut O) -> End
    ensures end { EndsAs cause result }
    ensures written { (text : List ℕ) → IfOk made (λ lines. lines.items ≡ text) →
        HasWritten result (unless_memory cause text) (O.held out.old) (O.held out.new) }
    ensures faults { CountsFaults result End.WriteFault (O.faults out.old) (O.faults out.new) }
{
    match made {
        Ok(text) => write_run(cause, &text, out),
        Err(_) => End::Memory,
    }
}

/// Writes this text of a run that ended in this cause, unless the run found no memory. It answers how the command ends.
pub(crate) fn write_run<O: Sink>(cause: Cause, text: &[u8], out: &mut O) -> End
    ensures end { EndsAs cause result }
    ensures memory { cause ≢ Cause.Memory → result ≢ End.Memory }
    ensures written { HasWritten result (unless_memory cause text.now) (O.held out.old) (O.held out.new) }
    ensures faults { CountsFaults result End.WriteFault (O.faults out.old) (O.faults out.new) }
{
    if cause == Cause::Memory {
        return End::Memory;
    }
    match write_all(out, text) {
        Ok(()) => End::Ended(cause),
        Err(_) => End::WriteFault,
    }
}

/// Writes what was made of what a command has read, unless there was no memory for it. It answers how the command ends.
pub(crate) fn write_read<O: Sink>(made: Lines, out: &mut O) -> End
    ensures end { (result ≡ End.Read) ⊎ ((result ≡ End.WriteFault) ⊎ (result ≡ End.Memory)) }
    ensures memory { IfErr made (λ _. result ≡ End.Memory) }
    ensures written { (text : List ℕ) → IfOk made (λ lines. lines.items ≡ text) →
        HasWritten result text (O.held out.old) (O.held out.new) }
    ensures writes { CountsFaults result End.WriteFault (O.faults out.old) (O.faults out.new) }
{
    match made {
        Ok(text) => match write_all(out, &text) {
            Ok(()) => End::Read,
            Err(_) => End::WriteFault,
        },
        Err(_) => End::Memory,
    }
}
