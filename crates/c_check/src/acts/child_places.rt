//! Places of children.

ghost use Rattle.std.specs.Prelude.{◌≡◌, ◌<◌, ◌+◌, length, IfOk, OnErr};
ghost use Rattle.c_syntax.specs.language.Tree.{children_of};
ghost use Rattle.c_syntax.specs.language.Numbered.{tree_at};
ghost use Rattle.c_check.specs.NameLists.{child_count as count_of};

use c_syntax::Tree;
use std::alloc::AllocError;

/// The next place. Where there is none, a node with so many children found no memory.
pub fn next_place(place: u32) -> Result<u32, AllocError>
    ensures next { IfOk result (λ next. next ≡ place + 1) }
    ensures err { OnErr result (place ≡ 4294967295) }
{
    if place == u32::MAX {
        return Err(AllocError);
    }
    Ok(place + 1)
}

/// How many children a node has, up to the first absent one.
pub fn count(tree: &Tree, node: u32) -> Result<u32, AllocError>
    requires { node < length tree.now.trees }
    ensures { IfOk result (λ n. n ≡ count_of (children_of (tree_at tree.now.trees node))) }
{
    let mut place = 0;
    while tree.child(node, place).is_some() {
        place = next_place(place)?;
    }
    Ok(place)
}
