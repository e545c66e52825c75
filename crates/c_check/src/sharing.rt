//! How a construct sees a variable.

/// How a construct sees a variable (OpenMP 5.2, 5.1).
#[derive(Clone, Copy, Debug, PartialEq, Eq)]
pub enum Sharing {
    /// The one that stands around the construct.
    Shared,
    /// A copy of each task's own.
    Private,
    /// A copy of each task's own, which begins with the value of the one around.
    First,
    /// A copy of each task's own, which is combined with the one around at the end.
    Reduced,
    /// One that is declared inside the construct.
    Local,
}
