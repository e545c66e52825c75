//! What an expression is evaluated in.

ghost use Rattle.c_steps.specs.Views.{HasNumbers};

use c_model::{Entry, View};
use c_syntax::Tree;

/// What an expression is evaluated in.
#[derive(Clone, Copy)]
pub(crate) struct Scope<'a> {
    pub(crate) tree: &'a Tree,
    /// The names of the file, oldest first.
    pub(crate) file: &'a [Entry],
    /// Those of the function that are in scope, oldest first.
    pub(crate) names: &'a [Entry],
    pub(crate) cells: &'a [i32],
    pub(crate) view: View,
    ghost numbers: { HasNumbers view },
}
