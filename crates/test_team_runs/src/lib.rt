//! Tests of the parts of a tool and of serial runs that call them: what parts hear, can inquire and have stored, what the parts that keep
//! their calls have written, and which programs are generated. Each compares with values and texts written out by hand.
#![tactic(auto)]

#[cfg(test)]
mod fixture;
#[cfg(test)]
mod generated;
#[cfg(test)]
mod hearing;
#[cfg(test)]
mod parts;
#[cfg(test)]
mod reports;
#[cfg(test)]
mod runs_of_programs;
#[cfg(test)]
mod snapshots;
#[cfg(test)]
mod states;
#[cfg(test)]
mod timelines;
