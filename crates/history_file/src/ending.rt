//! How a run ended, as a file tells it.

ghost use Rattle.std.specs.Prelude.{◌≡◌, ◌≢◌, None, Some};
ghost use Rattle.run_trace.specs.TraceOf.{FitsCause, detail_of, status_of};

use omp_model::Cause;

/// The status and the detail of a run that ended in this cause. A run that found no memory has none.
pub fn end_of(cause: Cause) -> Option<(u8, u32)>
    ensures is { cause ≢ Cause.Memory → result ≡ Some (status_of cause, detail_of cause) }
    ensures none { cause ≡ Cause.Memory → result ≡ None }
    ensures fits { FitsCause cause }
{
    match cause {
        Cause::Done => Some((0, 0)),
        Cause::Returned(value) => Some((1, value.cast_unsigned())),
        Cause::Trapped(number) => Some((4, u32::from(number))),
        Cause::Deadlock => Some((5, 0)),
        Cause::Limit(number) => Some((6, u32::from(number))),
        Cause::Memory => None,
    }
}
