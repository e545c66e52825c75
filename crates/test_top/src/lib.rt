//! Tests of the command, through `ompt_cli::top`: what guests hear and store, and what is reported of a run. They show what no clause says.
//! What a command writes is tested by the rows of `test_commands`.
#![tactic(auto)]

#[cfg(test)]
mod beside_profiles;
#[cfg(test)]
mod checking;
#[cfg(test)]
mod counts;
#[cfg(test)]
mod fixture;
#[cfg(test)]
mod gate;
#[cfg(test)]
mod hostile;
#[cfg(test)]
mod listening;
#[cfg(test)]
mod report_commands;
#[cfg(test)]
mod runs;
#[cfg(test)]
mod stored_words;
#[cfg(test)]
mod tests;
#[cfg(test)]
mod threads;
#[cfg(test)]
mod traces;
