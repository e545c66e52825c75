//! The tree of a program.

ghost use Rattle.std.specs.Prelude.{◌≡◌, ◌<◌, ◌+◌, length, pos, IfSome};
ghost use Rattle.std.specs.Option.{option_map};
ghost use Rattle.c_syntax.specs.language.Tree.{kind_of, spot_of, name_of, number_of, text_of, child_of, children_of};
ghost use Rattle.std.specs.List.{All};
ghost use Rattle.c_syntax.specs.workings.Nodes.{IsBelow};
ghost use Rattle.c_syntax.specs.language.Numbered.{children_at, tree_at};

use crate::node::NodeKind;
use crate::nodes::Nodes;
use c_tokens::Spot;
use std::marker::Model;

/// The tree of a program: nodes by their numbers, which are below how many there are. A node has a greater number than its
/// children. Contracts see the tree that each node stands for.
#[derive(Drop)]
pub struct Tree {
    nodes: Nodes,
    root: u32,
    end: Spot,
    main: u32,
}

impl Model for Tree {
    ghost use Rattle.std.specs.Prelude.{◌<◌, length};
    ghost use Rattle.c_syntax.specs.language.Numbered.{TreeView};
    ghost use Rattle.c_syntax.specs.workings.Codes.{tree_view_code};

    ghost Value = { TreeView };

    ghost coded = { tree_view_code };

    ghost view = { λ tree. record { trees = tree.nodes; root = tree.root; end = tree.end; main = tree.main } };

    ghost invariant = { λ tree. tree.root < length tree.nodes };
}

impl Tree {
    /// The tree of these nodes with this root, a text that ends here, and this number of the name `main`, or 0.
    pub(crate) fn new(nodes: Nodes, root: u32, end: Spot, main: u32) -> Tree
        requires { root < length nodes }
        ensures { result ≡ record { trees = nodes; root = root; end = end; main = main } }
    {
        Tree {
            nodes,
            root,
            end,
            main,
        }
    }

    /// How many nodes there are.
    pub fn len(&self) -> usize
        ensures { result ≡ length self.now.trees }
    {
        self.nodes.len()
    }

    /// What a node is.
    pub fn kind(&self, node: u32) -> NodeKind
        requires { node < length self.now.trees }
        ensures { result ≡ kind_of (tree_at self.now.trees node) }
    {
        self.nodes.label(node).kind
    }

    /// The number of a node's child at a place, counted from 0. `None` where the child is absent, and past the last.
    pub fn child(&self, node: u32, place: u32) -> Option<u32>
        requires { node < length self.now.trees }
        ensures child { option_map (tree_at self.now.trees) result ≡ child_of (tree_at self.now.trees node) place }
        ensures before { IfSome result (λ child. child < node) }
        ensures fits { IfSome result (λ child. place + 1 < 4294967295) }
    {
        self.nodes.child(node, place)
    }

    /// The numbers of a node's children, each smaller than the node's. An absent child keeps its place.
    pub fn children(&self, node: u32) -> &[Option<u32>]
        requires { node < length self.now.trees }
        ensures children { children_of (tree_at self.now.trees node) ≡ children_at self.now.trees result.now }
        ensures before { All (IsBelow node) result.now }
    {
        self.nodes.children(node)
    }

    /// Where a node's first word is.
    pub fn spot(&self, node: u32) -> Spot
        requires { node < length self.now.trees }
        ensures { result ≡ spot_of (tree_at self.now.trees node) }
    {
        self.nodes.label(node).spot
    }

    /// The value of a node's number, from 0 to 2147483647; 0 where it has none.
    pub fn number(&self, node: u32) -> i32
        requires { node < length self.now.trees }
        ensures { result ≡ pos (number_of (tree_at self.now.trees node)) }
    {
        self.nodes.label(node).number as i32
    }

    /// The number of a node's name: names count from 1, in the order in which they first appear. 0 where it has none.
    pub fn name(&self, node: u32) -> u32
        requires { node < length self.now.trees }
        ensures { result ≡ name_of (tree_at self.now.trees node) }
    {
        self.nodes.label(node).name
    }

    /// The bytes between the quotes of a node's text; none where it has no text.
    pub fn text(&self, node: u32) -> &[u8]
        requires { node < length self.now.trees }
        ensures { result.now ≡ text_of (tree_at self.now.trees node) }
    {
        self.nodes.text(node)
    }

    /// The number of the node that stands for the whole.
    pub fn root(&self) -> u32
        ensures root { result ≡ self.now.root }
        ensures within { result < length self.now.trees }
    {
        self.root
    }

    /// The place of the end of the text.
    pub fn end(&self) -> Spot
        ensures { result ≡ self.now.end }
    {
        self.end
    }

    /// The number of the name `main`, 0 where the text doesn't have it.
    pub fn main(&self) -> u32
        ensures { result ≡ self.now.main }
    {
        self.main
    }
}
