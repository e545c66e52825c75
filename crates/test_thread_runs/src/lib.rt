//! Tests of a book that threads share: by its public calls in turn, and by the drivers of a run. They show what no clause says: that the
//! calls succeed, who has to wait for whom, and that threads of the system take a run to its end, and are told what a replay of its history
//! tells.
#![tactic(auto)]

#[cfg(test)]
mod fixture;
#[cfg(test)]
mod in_turn;
#[cfg(test)]
mod on_threads;
#[cfg(test)]
mod replay;
