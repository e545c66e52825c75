//! What a registration is answered.

ghost use Rattle.std.specs.Prelude.{◌≡◌};
ghost use Rattle.omp_codes.specs.Answers.{answer_of};

use crate::callbacks::is_profile;
use crate::set_results::{ALWAYS, ERROR, NEVER};

/// What the registration of the callback with this number in `ompt_callbacks_t` (OpenMP 5.2, 19.4.2) is answered: one of
/// [`set_results`](crate::set_results).
///
/// The answer `NEVER` for the callback of errors, number 37, is a choice of this runtime.
pub fn set_answer(number: u32) -> u8
    ensures { result ≡ answer_of number }
{
    match number {
        _ if is_profile(number) => ALWAYS,
        8..=15 | 22 | 33..=36 => ALWAYS,
        1..=37 => NEVER,
        _ => ERROR,
    }
}
