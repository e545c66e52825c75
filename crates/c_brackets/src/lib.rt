//! What a task's code has open, and that its events open and end it in the manner of brackets.
//!
//! `specs/` says it over a task's code as `c_model` has it, without a look at cells, and without the numbers of tasks and regions:
//!
//! - `Opened`: what is open, told by what stands next, item by item;
//! - `Effects`: what an event opens or ends;
//! - `Links`: what only stands next, and behind which event;
//! - `Returns`: where the returns of a program stand;
//! - `Orderly`: the order in which a task's code stands, which each step keeps.
//!
//! Proved, by the contract of the function that is named:
//!
//! - in a program that breaks no rule no `return` stands in a construct ([`returns_stand_outside_constructs`]);
//! - the code of each task stands in order ([`code_stays_orderly`]);
//! - an event opens what becomes the newest of what is open, or ends what was the newest, or leaves it; a silent step and an answer leave it; no
//!   code begins with something open, and none ends so ([`code_has_open_what_events_began`]);
//! - a forked region is the newest of what is open, and the only one ([`forked_regions_end_next`]);
//! - what only stands next stands behind the event that leads to it ([`events_follow_what_led_to_them`]).
//!
//! A `return` leaves all that stands behind it in its function, so nothing may be open there: this is why the rule on returns counts here.
//!
//! In `proofs/OpenExamples` small programs are computed at some moments. The crate has no code that runs.
#![tactic(auto)]

mod laws;

pub use laws::{
    code_has_open_what_events_began, code_stays_orderly, events_follow_what_led_to_them,
    forked_regions_end_next, returns_stand_outside_constructs,
};
