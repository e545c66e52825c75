//! Tests of the crates that everything else stands on: lines of calls and inquiries, the answers to registrations, sources and sinks, and what
//! words ask for. Each compares with values written out by hand.
#![tactic(auto)]

#[cfg(test)]
mod calls;
#[cfg(test)]
mod codes;
#[cfg(test)]
mod edges;
#[cfg(test)]
mod two_tools;
#[cfg(test)]
mod words;
