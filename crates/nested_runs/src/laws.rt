//! What follows from the definitions alone: the law is the contract of a function with an empty body.

ghost use Rattle.std.specs.Prelude.{◌≡◌, ◌≤◌, List, Some, true};
ghost use Rattle.omp_codes.specs.declared.callbacks.TheConstants.{PROFILE_MASK};
ghost use Rattle.c_check.specs.Checked.{Checked};
ghost use Rattle.c_model.specs.Formed.{IsProgramFormed};
ghost use Rattle.omp_model.specs.declared.history.Entry.{Entry};
ghost use Rattle.omp_model.specs.Cause.{cause_of, none_pending};
ghost use Rattle.omp_model.specs.Legal.{Legal, after};
ghost use Rattle.omp_model.specs.State.{Run};
ghost use Rattle.trace_check.specs.Nested.{Nested};
ghost use Rattle.run_trace.specs.TraceOf.{trace_of};

use omp_model::Cause;

/// A legal history of 1 to 16 threads with the callbacks of the profile registered, of a program that breaks no rule, that ends in a cause and leaves no
/// thread inside a callback, comes to a trace that breaks no rule of the trace checker.
pub fn runs_are_nested()
    ensures { (run : Run) (history : List Entry) (cause : Cause) → 1 ≤ run.threads → run.threads ≤ 16 →
        run.mask ≡ PROFILE_MASK →
        Checked run.program → IsProgramFormed run.program → Legal run history → cause_of run history ≡ Some cause →
        none_pending (after run history) ≡ true →
        let trace = trace_of run cause history in Nested trace.header trace.events trace.end }
{}
