//! Which values the fields may have.

ghost use Rattle.std.specs.Prelude.{◌≡◌};
ghost use Rattle.trace_format.specs.Accepting.{accepts_detail};
ghost use Rattle.history_file.specs.Reading.{is_identity, is_kind, is_mask, is_status, is_step_count, is_target_kind, is_text_length, is_thread, is_thread_count};

use crate::file::{STEP_LIMIT, TEXT_LIMIT, THREAD_LIMIT};
use crate::kind;
use omp_codes::set_answer;
use omp_codes::set_results::ALWAYS;
use ompt_calls::is_registered;

/// Whether a run can have so many threads.
pub fn is_thread_count(n: u8) -> bool
    ensures { result ≡ is_thread_count n }
{
    n >= 1 && n <= THREAD_LIMIT
}

/// Whether each callback in the mask is one that is called always.
pub fn is_mask(mask: u64) -> bool
    ensures { result ≡ is_mask mask }
{
    for number in 0..u64::BITS {
        if is_registered(mask, number) && set_answer(number) != ALWAYS {
            return false;
        }
    }
    true
}

/// Whether a run may make so many silent steps.
pub fn is_step_count(n: u32) -> bool
    ensures { result ≡ is_step_count n }
{
    n >= 1 && n <= STEP_LIMIT
}

/// Whether a text can have so many bytes.
pub fn is_text_length(n: u32) -> bool
    ensures { result ≡ is_text_length n }
{
    n <= TEXT_LIMIT
}

/// Whether the kind may stand where so many more entries may come: that of the end, or of an entry.
pub fn is_kind(more: u32, n: u8) -> bool
    ensures { result ≡ is_kind more n }
{
    if more == 0 {
        n == kind::END
    } else {
        n <= kind::BACK
    }
}

/// Whether a run of so many threads has this one.
pub fn is_thread(threads: u8, n: u8) -> bool
    ensures { result ≡ is_thread threads n }
{
    n < threads
}

/// Whether there is such a kind of target.
pub fn is_target_kind(n: u8) -> bool
    ensures { result ≡ is_target_kind n }
{
    n >= kind::THREAD && n <= kind::TASK
}

/// Whether a target of this kind can have the identity, in a run of so many threads.
pub fn is_identity(threads: u8, target_kind: u8, n: u32) -> bool
    ensures { result ≡ is_identity threads target_kind n }
{
    n >= 1 && (target_kind != kind::THREAD || n <= u32::from(threads))
}

/// Whether a run can end with this status.
pub fn is_status(n: u8) -> bool
    ensures { result ≡ is_status n }
{
    n == 0 || n == 1 || n == 4 || n == 5 || n == 6
}

/// Whether this is told of a run that ended with the status.
pub fn is_detail(status: u8, n: u32) -> bool
    ensures { result ≡ accepts_detail status n }
{
    match status {
        1 => n >= 1,
        4 => n >= 1 && n <= 10,
        6 => n >= 1 && n <= 7,
        _ => n == 0,
    }
}
