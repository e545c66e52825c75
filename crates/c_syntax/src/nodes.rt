//! Nodes in a table, by their numbers.

ghost use Rattle.std.specs.Prelude.{◌≡◌, ◌<◌, ◌+◌, ◌≤◌, ◌++◌, ◌∷◌, [], length, IfOk, IfSome, OnErr};
ghost use Rattle.std.specs.Option.{option_map};
ghost use Rattle.std.specs.List.{All};
ghost use Rattle.c_syntax.specs.language.Tree.Tree.{Node as tree_node};
ghost use Rattle.c_syntax.specs.language.Tree.{kind_of, spot_of, name_of, number_of, text_of, child_of, children_of};
ghost use Rattle.c_syntax.specs.language.Numbered.{tree_at, children_at};
ghost use Rattle.c_syntax.specs.workings.Nodes.{IsBelow};

use crate::node::NodeKind;
use c_tokens::Spot;
use std::alloc::{AllocError, Global};
use std::marker::Model;

/// What a node says of itself.
#[derive(Clone, Copy)]
pub(crate) struct Label {
    pub kind: NodeKind,
    /// Where its first word is.
    pub spot: Spot,
    /// The number of its name, or 0.
    pub name: u32,
    /// The value of its number, or 0.
    pub number: u32,
}

/// From where to where something lies.
#[derive(Clone, Copy)]
struct Span {
    start: usize,
    end: usize,
}

#[derive(Clone, Copy)]
struct Node {
    label: Label,
    /// Its text in the texts.
    text: Span,
    /// Its children among all.
    children: Span,
}

/// Nodes by their numbers: a node has a greater number than its children. Contracts see the tree that each stands for.
#[derive(Drop)]
pub(crate) struct Nodes {
    nodes: Vec<Node>,
    /// The children of the nodes, those of a node side by side; an absent one keeps its place.
    children: Vec<Option<u32>>,
    texts: Vec<u8>,
}

impl Model for Nodes {
    ghost use Rattle.std.specs.Prelude.{List, []};
    ghost use Rattle.c_syntax.specs.language.Tree.{Tree};
    ghost use Rattle.c_syntax.specs.workings.Codes.{trees_code};

    ghost Value = { List Tree };

    ghost coded = { trees_code };

    ghost use Rattle.c_syntax.specs.workings.Nodes.{trees_behind, AreNodes};

    ghost view = { λ table. trees_behind table.children.items table.texts.items [] table.nodes.items };

    ghost invariant = { λ table. AreNodes table.children.items table.texts.items table.nodes.items };
}

impl Nodes {
    pub fn new(alloc: Global) -> Nodes
        ensures { result ≡ [] }
    {
        Nodes {
            nodes: Vec::new(alloc),
            children: Vec::new(alloc),
            texts: Vec::new(alloc),
        }
    }

    /// How many nodes there are.
    pub fn len(&self) -> usize
        ensures { result ≡ length self.now }
    {
        self.nodes.len()
    }

    /// Adds a node, and gives its number. More nodes, or more children of one node, than a `u32` counts are want of memory too.
    pub fn add(
        &mut self,
        label: Label,
        text: &[u8],
        children: &[Option<u32>],
    ) -> Result<u32, AllocError>
        requires number { label.number ≤ 2147483647 }
        requires children { All (IsBelow (length self.old)) children.now }
        ensures added { IfOk result (λ number.
            self.new ≡ self.old ++ tree_node label.kind label.spot label.name label.number text.now
            (children_at self.old children.now) ∷ []) }
        ensures number { IfOk result (λ number. number ≡ length self.old) }
        ensures err { OnErr result (self.new ≡ self.old) }
    {
        let Ok(number) = u32::try_from(self.nodes.len()) else {
            return Err(AllocError);
        };
        if children.len() >= u32::MAX as usize {
            return Err(AllocError);
        }
        let texts = self.texts.len();
        self.texts.extend_from_slice(text)?;
        let first = self.children.len();
        self.children.extend_from_slice(children)?;
        self.nodes.push(Node {
            label,
            text: Span {
                start: texts,
                end: self.texts.len(),
            },
            children: Span {
                start: first,
                end: self.children.len(),
            },
        })?;
        Ok(number)
    }

    /// What a node says of itself.
    pub fn label(&self, node: u32) -> Label
        requires { node < length self.now }
        ensures kind { result.kind ≡ kind_of (tree_at self.now node) }
        ensures spot { result.spot ≡ spot_of (tree_at self.now node) }
        ensures name { result.name ≡ name_of (tree_at self.now node) }
        ensures number { result.number ≡ number_of (tree_at self.now node) }
        ensures few { result.number ≤ 2147483647 }
    {
        self.nodes[node as usize].label
    }

    /// The number of the child at a place, counted from 0. `None` where it is absent, and past the last.
    pub fn child(&self, node: u32, place: u32) -> Option<u32>
        requires { node < length self.now }
        ensures child { option_map (tree_at self.now) result ≡ child_of (tree_at self.now node) place }
        ensures before { IfSome result (λ child. child < node) }
        ensures fits { IfSome result (λ child. place + 1 < 4294967295) }
    {
        let span = self.nodes[node as usize].children;
        let children = &self.children[span.start..span.end];
        match children.get(place as usize) {
            Some(child) => *child,
            None => None,
        }
    }

    /// The numbers of a node's children, each smaller than the node's. An absent child keeps its place.
    pub fn children(&self, node: u32) -> &[Option<u32>]
        requires { node < length self.now }
        ensures children { children_of (tree_at self.now node) ≡ children_at self.now result.now }
        ensures before { All (IsBelow node) result.now }
    {
        let span = self.nodes[node as usize].children;
        &self.children[span.start..span.end]
    }

    /// The bytes of a node's text.
    pub fn text(&self, node: u32) -> &[u8]
        requires { node < length self.now }
        ensures { result.now ≡ text_of (tree_at self.now node) }
    {
        let span = self.nodes[node as usize].text;
        &self.texts[span.start..span.end]
    }
}
