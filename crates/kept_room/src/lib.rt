//! Lists with room kept for more.
//!
//! A [`Roomy`] is a vector that knows how many more items it takes without memory. What takes memory is [`Roomy::reserve`] alone: who has made
//! room before a step goes through the step without an error. So a step that finds no memory has changed nothing.
//!
//! Contracts see the items, and how many more there is room for (`specs/Roomy.antt`). Proved by the contracts of [`Roomy`]: what each call
//! does to both. Nothing more is promised of a call.
#![tactic(auto)]

mod roomy;

pub use roomy::Roomy;
