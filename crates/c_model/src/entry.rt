//! Names in scope.

/// A name in scope: its first cell, how many cells it has, and the slot of its declaration. An `int` and a lock have one cell, an array
/// one for each element.
#[derive(Clone, Copy)]
pub struct Entry {
    /// The number of the name.
    pub name: u32,
    /// The number of its first cell.
    pub first: u32,
    /// How many cells it has.
    pub size: u32,
    /// The slot of its declaration.
    pub slot: u32,
}
