//! The parts of a tree by the numbers of their nodes. A part that is missing is that of an empty program.

ghost use Rattle.std.specs.Prelude.{◌≡◌, ◌<◌, ◌+◌, length, is_some, IfSome};
ghost use Rattle.c_syntax.specs.language.Tree.{kind_of, name_of};
ghost use Rattle.c_check.specs.Loops.{child_at};
ghost use Rattle.c_model.specs.Parts.{has_child, parts};
ghost use Rattle.c_model.specs.Task as tasks;
ghost use Rattle.c_steps.specs.Nodes.{IsPart, part_at};
ghost use Rattle.c_steps.specs.Rests.{parts_from, with_part};

use c_syntax::{NodeKind, Tree};

/// What a part is.
#[inline(always)]
pub(crate) fn kind_of_part(tree: &Tree, part: Option<u32>) -> NodeKind
    requires { IsPart tree.now.trees part }
    ensures { result ≡ kind_of (part_at tree.now.trees part) }
{
    match part {
        Some(node) => tree.kind(node),
        None => NodeKind::Program,
    }
}

/// The child of a part at a place.
#[inline(always)]
pub(crate) fn child_of_part(tree: &Tree, part: Option<u32>, place: u32) -> Option<u32>
    requires { IsPart tree.now.trees part }
    ensures child { part_at tree.now.trees result ≡ child_at (part_at tree.now.trees part) place }
    ensures some { is_some result ≡ has_child (part_at tree.now.trees part) place }
    ensures there { IsPart tree.now.trees result }
{
    match part {
        Some(node) => tree.child(node, place),
        None => None,
    }
}

/// The number of a part's name, 0 where it has none.
#[inline(always)]
pub(crate) fn name_of_part(tree: &Tree, part: Option<u32>) -> u32
    requires { IsPart tree.now.trees part }
    ensures { result ≡ name_of (part_at tree.now.trees part) }
{
    match part {
        Some(node) => tree.name(node),
        None => 0,
    }
}

/// The child of a part at a place, where the parts from there on are what is left of the whole.
#[tactic(auto, using(crate::proofs::Rests::rest_parts_cases))]
#[inline(always)]
pub(crate) fn next_part(tree: &Tree, whole: Option<u32>, place: u32) -> Option<u32>
    requires { IsPart tree.now.trees whole }
    ensures parts { parts_from (part_at tree.now.trees whole) place ≡
        with_part tree.now.trees (part_at tree.now.trees whole) place result }
    ensures there { IfSome result (λ child. child < length tree.now.trees) }
    ensures is_part { IsPart tree.now.trees result }
    ensures fits { IfSome result (λ child. place + 1 < 4294967295) }
{
    match whole {
        Some(node) => tree.child(node, place),
        None => None,
    }
}

/// How many parts a part has, up to the first absent one.
#[tactic(auto, unfolding(c_check::specs::Tasks::from_place))]
pub(crate) fn part_count(tree: &Tree, whole: Option<u32>) -> u32
    requires { IsPart tree.now.trees whole }
    ensures { result ≡ length (parts (part_at tree.now.trees whole)) }
{
    let mut place = 0;
    while let Some(_) = next_part(tree, whole, place) {
        place += 1;
    }
    place
}

/// Whether a part of a block is a declarator, and no statement.
pub(crate) fn is_declarator(kind: NodeKind) -> bool
    ensures { result ≡ tasks.is_declarator kind }
{
    matches!(
        kind,
        NodeKind::Name | NodeKind::LocalVar | NodeKind::LocalArray | NodeKind::LocalSet
    )
}
