//! Tests of the formats of traces and of histories, by their public calls: a trace or a history that was written out by hand is written and read so, at
//! each cut, and what isn't one is refused where it was told by hand.
#![tactic(auto)]

#[cfg(test)]
mod histories;
#[cfg(test)]
mod reading;
#[cfg(test)]
mod smallest;
#[cfg(test)]
mod writing;
