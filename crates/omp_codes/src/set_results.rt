//! What a registration is answered: `ompt_set_result_t` (OpenMP 5.2, 19.4.4).

/// `ompt_set_error = 0`: the number is no callback's.
pub const ERROR: u8 = 0;

/// `ompt_set_never = 1`: the callback is never called, and here isn't registered either.
pub const NEVER: u8 = 1;

/// `ompt_set_always = 5`: the callback is called at each of its events.
pub const ALWAYS: u8 = 5;
