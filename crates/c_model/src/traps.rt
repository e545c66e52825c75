//! The traps of expressions.

/// A result isn't from -2147483648 to 2147483647.
pub const OVERFLOW: u8 = 1;

/// A divisor is 0.
pub const ZERO_DIVIDE: u8 = 2;

/// An index is below 0, or not below the size of its array.
pub const INDEX: u8 = 3;
