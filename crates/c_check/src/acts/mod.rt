//! What a program does with names, scopes and constructs: its acts, and the walk that tells them one after another.

pub mod act;
pub mod child_places;
pub mod directive;
pub mod loop_parts;
pub mod node_acts;
pub mod role;
pub mod shared_loops;
pub mod walk;
