//! Tests of teams, of pools of tasks and of locks, by their public calls: that they succeed, that the definitions mean what was meant, and that
//! long lists of calls agree with plain lists.
#![tactic(auto)]

#[cfg(test)]
mod draws;
#[cfg(test)]
mod locks;
#[cfg(test)]
mod plain_pool;
#[cfg(test)]
mod plain_team;
#[cfg(test)]
mod pools;
#[cfg(test)]
mod teams;
