//! Constructs: those that are open, those that have ended, and how they see variables.

pub mod arena;
pub mod around;
pub mod construct;
pub mod copying;
pub mod criticals;
pub mod inner_loops;
pub mod mentions;
pub mod noted;
pub mod parts;
pub mod shares;
pub mod spots;
pub mod task_copies;
