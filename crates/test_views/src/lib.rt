//! Tests of what other programs read of the pictures of a trace.
#![tactic(auto)]

#[cfg(test)]
mod as_json;
#[cfg(test)]
mod fixture;
