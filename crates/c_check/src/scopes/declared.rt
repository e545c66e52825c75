//! What is kept of names.

use crate::acts::act::Thing;
use c_tokens::Spot;

/// A declaration.
#[derive(Clone, Copy)]
pub struct Declared {
    /// The number of its name.
    pub name: u32,
    /// What it is.
    pub thing: Thing,
    /// Its number, from 0, in the order of the text.
    pub slot: u32,
    /// How many scopes are around its own.
    pub level: usize,
}

/// A name that stands there is of this declaration.
#[derive(Clone, Copy)]
pub struct Named {
    pub spot: Spot,
    pub slot: u32,
}
