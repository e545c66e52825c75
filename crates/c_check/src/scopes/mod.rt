//! Declarations, scopes, and the slots of names.

pub mod cells;
pub mod declarations;
pub mod declared;
pub mod slots;
