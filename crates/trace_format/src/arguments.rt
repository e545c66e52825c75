//! Which arguments a callback can have.

ghost use Rattle.std.specs.Prelude.{◌≡◌, ◌↔◌, IsTrue, length};
ghost use Rattle.trace_format.specs.Accepting.{AreOf, HasItsIterations, IsOf};
ghost use Rattle.trace_format.specs.Validity.{IsCall, IsDispatched, IsWord};

use crate::kind::{Kind, accepts_number, kinds_of};
use omp_codes::dispatch_kinds;
use ompt_calls::{Argument, Call, Word};

/// Whether the callback can have its arguments.
pub(crate) fn is_call(call: Call) -> bool
    ensures { IsTrue result ↔ IsCall call }
{
    let arguments = call.arguments();
    are_of(kinds_of(call.number()), arguments.as_slice()) && has_its_iterations(call)
}

/// Whether each argument is of its kind.
fn are_of(kinds: &[Kind], arguments: &[Argument]) -> bool
    requires { length kinds.now ≡ length arguments.now }
    ensures { IsTrue result ↔ AreOf kinds.now arguments.now }
{
    for place in 0..kinds.len() {
        if !is_of(kinds[place], arguments[place]) {
            return false;
        }
    }
    true
}

/// Whether the argument is of the kind.
fn is_of(kind: Kind, argument: Argument) -> bool
    ensures { IsTrue result ↔ IsOf kind argument }
{
    match argument {
        Argument::Short(number) => accepts_number(kind, number),
        Argument::Long(_) => matches!(kind, Kind::Long | Kind::Place | Kind::Iterations),
        Argument::Word(word) => matches!(kind, Kind::Word) && is_word(word),
        Argument::Frame(_) => matches!(kind, Kind::Frame),
    }
}

/// Whether the data word can be: NULL has no value.
fn is_word(word: Word) -> bool
    ensures { IsTrue result ↔ IsWord word }
{
    word.identity != 0 || word.value == 0
}

/// Whether so many iterations were dispatched as its kind has.
fn has_its_iterations(call: Call) -> bool
    ensures { IsTrue result ↔ HasItsIterations call }
{
    match call {
        Call::Dispatch {
            kind,
            iterations,
            ..
        } => is_dispatched(kind, iterations),
        _ => true,
    }
}

/// A section, which has no iterations, or a chunk of a loop, which has some.
fn is_dispatched(kind: u32, iterations: u64) -> bool
    ensures { IsTrue result ↔ IsDispatched kind iterations }
{
    match kind {
        dispatch_kinds::SECTION => iterations == 0,
        dispatch_kinds::WS_LOOP_CHUNK => iterations >= 1,
        _ => false,
    }
}
