//! A node of a program that is made ready to run.

ghost use Rattle.std.specs.Prelude.{◌<◌, length};

use crate::code::Code;
use c_syntax::NodeKind;

/// A node of a program. Contracts see the tree that it stands for by `tree_of`.
#[derive(Clone, Copy)]
pub(crate) struct Node<'a> {
    pub(crate) code: &'a Code,
    pub(crate) number: u32,
    ghost there: { number < length code.now.trees },
}

impl<'a> Node<'a> {
    ghost use Rattle.std.specs.Prelude.{◌≡◌, is_some};
    ghost use Rattle.c_syntax.specs.language.Tree.{kind_of};
    ghost use Rattle.c_check.specs.Loops.{child_at};
    ghost use Rattle.c_model.specs.Parts.{has_child};
    ghost use Rattle.c_model.specs.Program.{place_of};
    ghost use Rattle.c_steps.specs.Nodes.{IsPart, part_at};
    ghost use Rattle.c_steps.specs.NodeTrees.{tree_of};

    /// What it is.
    #[inline(always)]
    pub(crate) fn kind(self) -> NodeKind
        ensures { result ≡ kind_of (tree_of self.entry) }
    {
        self.code.kind(Some(self.number))
    }

    /// Its child at a place.
    #[inline(always)]
    pub(crate) fn child(self, place: u32) -> Option<u32>
        ensures child { part_at self.entry.code.now.trees result ≡ child_at (tree_of self.entry) place }
        ensures some { is_some result ≡ has_child (tree_of self.entry) place }
        ensures there { IsPart self.entry.code.now.trees result }
    {
        self.code.child(Some(self.number), place)
    }

    /// Its place as tools are told it.
    pub(crate) fn place(self) -> u64
        ensures { result ≡ place_of (tree_of self.entry) }
    {
        self.code.place(self.number)
    }
}
