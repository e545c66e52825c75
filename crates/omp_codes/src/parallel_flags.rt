//! The flags of a parallel region: `ompt_parallel_flag_t` (OpenMP 5.2, 19.4.4).

/// `ompt_parallel_invoker_program = 0x00000001`.
pub const INVOKER_PROGRAM: u32 = 0x0000_0001;

/// `ompt_parallel_team = 0x80000000`.
pub const TEAM: u32 = 0x8000_0000;

/// Both of them, which are the flags of each region here.
pub const TEAM_OF_PROGRAM: u32 = INVOKER_PROGRAM | TEAM;
