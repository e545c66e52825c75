//! What follows from the definitions alone: the law is the contract of a function with an empty body.

ghost use Rattle.std.specs.Prelude.{◌↔◌};
ghost use Rattle.trace_format.specs.declared.trace.Trace.{Trace};
ghost use Rattle.trace_format.specs.Migrating.{migrated_trace};
ghost use Rattle.trace_check.specs.declared.breach.Breach.{Breach};
ghost use Rattle.trace_check.specs.Nested.{IsFirstBreach, Nested};

/// A trace is nested exactly where what it is migrated to is, and they have the same first breach.
pub fn migrated_alike()
    ensures nested { (trace : Trace) → Nested trace.header trace.events trace.end ↔
        Nested (migrated_trace trace).header (migrated_trace trace).events (migrated_trace trace).end }
    ensures first { (trace : Trace) → (breach : Breach) → IsFirstBreach trace.header trace.events trace.end breach ↔
        IsFirstBreach (migrated_trace trace).header (migrated_trace trace).events (migrated_trace trace).end breach }
{}
