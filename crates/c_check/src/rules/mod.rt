//! The rules, and the check of a program by them.

pub mod breaches;
pub mod checker;
pub mod checking;
pub mod finding;
pub mod nesting;
pub mod uses;
