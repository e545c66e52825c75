//! The numbers that definitions and code share.

/// The number of the limit of cells.
pub const CELLS: u8 = 3;

/// The most cells of a run.
pub const CELL_LIMIT: usize = 1_048_576;

/// The number of the limit of open calls.
pub const CALLS: u8 = 6;

/// The most calls that are open in one task. That of main counts.
pub const CALL_LIMIT: usize = 64;

/// The number of the limit of printed text.
pub const TEXT: u8 = 7;

/// The most bytes that a run prints.
pub const TEXT_LIMIT: usize = 1_048_576;

/// What a line counts in a place that tools are told as `codeptr_ra`: line × 65536 + column.
pub const LINE_UNIT: u64 = 65_536;

/// The wait identifier of a lock is the number of its cell plus this.
pub const LOCK_UNIT: u32 = 65_536;
