//! Whether an interval begins or ends: `ompt_scope_endpoint_t` (OpenMP 5.2, 19.4.4.11).

/// `ompt_scope_begin = 1`.
pub const BEGIN: u32 = 1;

/// `ompt_scope_end = 2`.
pub const END: u32 = 2;
