//! What follows from the definitions alone: the law is the contract of a function with an empty body.

ghost use Rattle.std.specs.Prelude.{◌≡◌, ◌≤◌, List, Some};
ghost use Rattle.std.specs.List.{All};
ghost use Rattle.omp_codes.specs.declared.callbacks.TheConstants.{PROFILE_MASK};
ghost use Rattle.omp_model.specs.declared.history.Entry.{Entry};
ghost use Rattle.omp_model.specs.Cause.{cause_of};
ghost use Rattle.omp_model.specs.Legal.{Legal};
ghost use Rattle.omp_model.specs.Records.{records_of};
ghost use Rattle.omp_model.specs.State.{Run};
ghost use Rattle.trace_format.specs.Fitting.{FitsFields};
ghost use Rattle.trace_format.specs.Validity.{IsTrace};
ghost use Rattle.run_trace.specs.TraceOf.{FitsCause, trace_of};

use omp_model::Cause;

/// A legal history of 1 to 16 threads with the callbacks of the profile registered, that ends in a cause, comes to a trace: its sequence numbers rise
/// below the limit of traces, each call has only arguments of the format, and each trap and limit has a number of the format. What is supposed is that
/// the numbers of the records fit their fields, as those of a run do by their types: each argument of each callback, and also those that have
/// only some values, as kinds, endpoints, flags and statuses.
pub fn runs_have_traces()
    ensures { (run : Run) (history : List Entry) (cause : Cause) → 1 ≤ run.threads → run.threads ≤ 16 →
        run.mask ≡ PROFILE_MASK →
        Legal run history → cause_of run history ≡ Some cause → All FitsFields (records_of run history) →
        FitsCause cause →
        IsTrace (trace_of run cause history) }
{}
