//! The rules of programs, as they are said of the tree.
//!
//! `c_check` defines what it is to break a rule over the acts of a program, in the order of its text, and over where the program stands
//! after some of them. Here a rule is said of the tree alone, in the words of `docs/rules.md`, and it is shown to be broken at the same
//! places. The definitions that are to be believed:
//!
//! - `specs/Scopes.antt`: the nodes of a tree, each with the declarations that are in scope where it stands, and what a name means there;
//! - `specs/LoopForm.antt`: the loops that a `for` directive can share out, and the constructs whose statement is none;
//! - `specs/ListedNames.antt`: the names that are used inside of a construct with `default(none)`, and stand in none of its data clauses.
//!
//! Proved, as laws of the definitions, of the tree of each text:
//!
//! - [`loop_form`]: the rule on loops (12) is broken at a place exactly where a `for` construct stands there whose statement is no loop of
//!   the form;
//! - [`listed_names`]: the rule on listed names (14) is broken at a place exactly where a name is used there inside of a construct with
//!   `default(none)`, which means a variable, an array or a lock that is declared outside of it, and which none of its data clauses lists.
//!   Nor is it the name of the variable of a loop that a directive inside shares out.
//!
//! The crate has no code that runs.
#![tactic(auto)]

mod laws;

pub use laws::{listed_names, loop_form};
