//! What a member is dealt: `ompt_dispatch_t` (OpenMP 5.2, 19.4.4).

/// `ompt_dispatch_section = 2`.
pub const SECTION: u32 = 2;

/// `ompt_dispatch_ws_loop_chunk = 3`: a chunk of a worksharing loop.
pub const WS_LOOP_CHUNK: u32 = 3;
