//! Chains of operators: `a + b + c` is `a + b` with an operator more, and may be as long as the text.

ghost use Rattle.std.specs.Prelude.{◌≡◌, ◌<◌, ◌≤◌, ◌+◌, IfSome, length};
ghost use Rattle.c_syntax.specs.language.Numbered.{tree_at};
ghost use Rattle.c_steps.specs.Chains.{IsChain, IsLeftOf, left_below};

use c_syntax::{NodeKind, Tree};

/// A chain of operators, each the left operand of the one above it.
#[derive(Clone, Copy)]
pub(crate) struct Chain {
    /// How many operators it has.
    pub(crate) levels: u32,
    /// The node below them all.
    pub(crate) lowest: u32,
}

/// The longest chain from a node down. It has no operator where the node has none, or no left operand.
#[tactic(auto, using(crate::proofs::LeftOperands::chain_more, crate::proofs::LeftOperands::below_more))]
pub(crate) fn chain_from(tree: &Tree, node: u32) -> Chain
    requires { node < length tree.now.trees }
    ensures chain { IsChain result.levels (tree_at tree.now.trees node) }
    ensures lowest { tree_at tree.now.trees result.lowest ≡ left_below result.levels (tree_at tree.now.trees node) }
    ensures within { result.lowest + result.levels ≤ node }
{
    let mut chain = Chain {
        levels: 0,
        lowest: node,
    };
    while let Some(left) = left_operand(tree, chain.lowest) {
        chain.lowest = left;
        chain.levels += 1;
    }
    chain
}

/// The left operand of a node with a binary operator.
fn left_operand(tree: &Tree, node: u32) -> Option<u32>
    requires { node < length tree.now.trees }
    ensures left { IfSome result (λ left. IsLeftOf (tree_at tree.now.trees node) (tree_at tree.now.trees left)) }
    ensures before { IfSome result (λ left. left < node) }
{
    match tree.kind(node) {
        NodeKind::Binary(_) => tree.child(node, 0),
        _ => None,
    }
}

/// The left operand so many operators further down in a chain.
#[tactic(auto, using(crate::proofs::LeftOperands::next_below))]
pub(crate) fn operand_below(tree: &Tree, node: u32, levels: u32) -> u32
    requires node { node < length tree.now.trees }
    requires chain { IsChain levels (tree_at tree.now.trees node) }
    ensures operand { tree_at tree.now.trees result ≡ left_below levels (tree_at tree.now.trees node) }
    ensures within { result + levels ≤ node }
{
    let mut below = node;
    for _level in 0..levels {
        match tree.child(below, 0) {
            Some(left) => below = left,
            None => unreachable!(),
        }
    }
    below
}
