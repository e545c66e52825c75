//! What follows from the definitions alone: the law is the contract of a function with an empty body.

ghost use Rattle.std.specs.Prelude.{◌≡◌, true};
ghost use Rattle.trace_format.specs.declared.trace.Trace.{Trace};
ghost use Rattle.trace_check.specs.Nested.{Nested, has_returned};
ghost use Rattle.trace_view.specs.Slices.{NoneOpen, SlicesNest};

/// In a nested trace each end of a slice has the name of the newest slice that is open on its thread, and where main returned no slice stays
/// open.
pub fn slices_nest()
    ensures nest { (trace : Trace) → Nested trace.header trace.events trace.end → SlicesNest trace.events }
    ensures over { (trace : Trace) → Nested trace.header trace.events trace.end → has_returned trace.end ≡ true →
        NoneOpen trace.events }
{}
