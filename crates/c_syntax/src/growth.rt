//! The tree of a program while it is read.

ghost use Rattle.std.specs.Prelude.{◌≡◌, ◌≤◌, ◌<◌, [], ◌∷◌, ◌++◌, length, reverse, OnOk, OnErr, IfOk};
ghost use Rattle.std.specs.List.{All};
ghost use Rattle.c_syntax.specs.language.Tree.Tree.{Node as tree_node};
ghost use Rattle.c_syntax.specs.language.Tree.{spot_of};
ghost use Rattle.c_syntax.specs.workings.Derivation.{outermost, opened_at, made, joined, wrapped, skipped, result_of, name_in};
ghost use Rattle.c_syntax.specs.workings.Keeping.{with_name, with_number, with_text};
ghost use Rattle.c_syntax.specs.workings.LastChildren.{last_of, last_two_of};
ghost use Rattle.c_syntax.specs.workings.Nodes.{IsBelow};
ghost use Rattle.c_syntax.specs.language.Numbered.{root_tree, tree_at, children_at};

use crate::node::NodeKind;
use crate::nodes::{Label, Nodes};
use crate::tree::Tree;
use c_tokens::Spot;
use std::alloc::{AllocError, Global};
use std::marker::Model;

/// The place of what isn't in the text.
const NOWHERE: Spot = Spot { line: 0, column: 0 };

/// A program without anything.
const NOTHING: Label = Label {
    kind: NodeKind::Program,
    spot: NOWHERE,
    name: 0,
    number: 0,
};

/// A node that has begun.
#[derive(Clone, Copy)]
struct OpenNode {
    spot: Spot,
    name: u32,
    number: u32,
    /// Where the bytes that it keeps begin among those of the open nodes.
    text: usize,
    /// Where its children begin among those of the open nodes.
    children: usize,
}

/// The tree of a program while it is read: the nodes that are made, and the open ones. Contracts see the open nodes, the innermost
/// first. After an error nothing is known of it.
#[derive(Drop)]
pub struct Growth {
    nodes: Nodes,
    /// The innermost open node.
    inner: OpenNode,
    /// The open nodes around it, the outermost first.
    outer: Vec<OpenNode>,
    /// The children of the open nodes, those of the outermost first.
    children: Vec<Option<u32>>,
    /// The bytes that the open nodes keep, those of the outermost first.
    texts: Vec<u8>,
}

impl Model for Growth {
    ghost use Rattle.std.specs.Prelude.{List, ◌∷◌, length, reverse};
    ghost use Rattle.std.specs.List.{All};
    ghost use Rattle.c_syntax.specs.workings.Derivation.{Opened};
    ghost use Rattle.c_syntax.specs.workings.Codes.{opened_code};

    ghost Value = { List Opened };

    ghost coded = { opened_code };

    ghost use Rattle.c_syntax.specs.workings.Nodes.{IsBelow};
    ghost use Rattle.c_syntax.specs.workings.Growth.{opened_nodes, AreOpen};

    ghost view = { λ growth. opened_nodes growth.nodes growth.children.items growth.texts.items (growth.inner ∷
        reverse growth.outer.items) };

    ghost invariant = { λ growth. AreOpen (growth.inner ∷ reverse growth.outer.items) (length growth.children.items)
        (length growth.texts.items) × All (IsBelow (length growth.nodes)) growth.children.items };
}

impl Growth {
    /// Nothing made, and the node open that takes the program.
    pub fn new(alloc: Global) -> Result<Growth, AllocError>
        ensures { IfOk result (λ growth. growth ≡ outermost) }
    {
        Ok(Growth {
            nodes: Nodes::new(alloc),
            inner: OpenNode {
                spot: NOWHERE,
                name: 0,
                number: 0,
                text: 0,
                children: 0,
            },
            outer: Vec::new(alloc),
            children: Vec::new(alloc),
            texts: Vec::new(alloc),
        })
    }

    /// Opens a node at this place.
    pub fn open(&mut self, spot: Spot) -> Result<(), AllocError>
        ensures { OnOk result (self.new ≡ opened_at spot ∷ self.old) }
    {
        self.outer.push(self.inner)?;
        self.inner = OpenNode {
            spot,
            name: 0,
            number: 0,
            text: self.texts.len(),
            children: self.children.len(),
        };
        Ok(())
    }

    /// The innermost open node keeps this name.
    pub fn keep_name(&mut self, name: u32)
        ensures { self.new ≡ with_name name self.old }
    {
        self.inner.name = name;
    }

    /// The innermost open node keeps this number.
    pub fn keep_number(&mut self, number: u32)
        requires { number ≤ 2147483647 }
        ensures { self.new ≡ with_number number self.old }
    {
        self.inner.number = number;
    }

    /// The innermost open node keeps these bytes.
    pub fn keep_text(&mut self, text: &[u8]) -> Result<(), AllocError>
        ensures { OnOk result (self.new ≡ with_text text.now self.old) }
    {
        self.texts.truncate(self.inner.text);
        self.texts.extend_from_slice(text)
    }

    /// The innermost open node is over: it becomes a node of this kind, and a child of the next. The outermost stays open.
    pub fn make(&mut self, kind: NodeKind) -> Result<(), AllocError>
        ensures { OnOk result (self.new ≡ made kind self.old) }
    {
        let Some(parent) = self.outer.pop() else {
            return Ok(());
        };
        let node = self.inner;
        let label = Label {
            kind,
            spot: node.spot,
            name: name_in(kind, node.name),
            number: node.number,
        };
        let text = &self.texts[node.text..];
        let children = &self.children[node.children..];
        let made = self.nodes.add(label, text, children)?;
        self.inner = parent;
        self.texts.truncate(node.text);
        self.children.truncate(node.children);
        self.children.push(Some(made))?;
        Ok(())
    }

    /// The last two children of the innermost open node become those of a node of this kind, where neither is absent.
    pub fn join(&mut self, kind: NodeKind) -> Result<(), AllocError>
        ensures { OnOk result (self.new ≡ joined kind self.old) }
    {
        let Some((left, right)) = last_two(&self.children[self.inner.children..]) else {
            return Ok(());
        };
        let made = add_over(&mut self.nodes, kind, left, &[Some(left), Some(right)])?;
        self.children.truncate(self.children.len() - 2);
        self.children.push(Some(made))?;
        Ok(())
    }

    /// The last child of the innermost open node becomes that of a node of this kind, where it isn't absent.
    pub fn wrap(&mut self, kind: NodeKind) -> Result<(), AllocError>
        ensures { OnOk result (self.new ≡ wrapped kind self.old) }
    {
        let Some(child) = last_made(&self.children[self.inner.children..]) else {
            return Ok(());
        };
        let made = add_over(&mut self.nodes, kind, child, &[Some(child)])?;
        self.children.truncate(self.children.len() - 1);
        self.children.push(Some(made))?;
        Ok(())
    }

    /// The next child of the innermost open node is absent.
    pub fn skip(&mut self) -> Result<(), AllocError>
        ensures { OnOk result (self.new ≡ skipped self.old) }
    {
        self.children.push(None)?;
        Ok(())
    }

    /// The tree whose root is the child that was made last in the innermost open node, of a text that ends here and has this number for
    /// the name `main`, or 0. Where none was made, or the last is absent, the root is a program without anything.
    pub fn finish(mut self, end: Spot, main: u32) -> Result<Tree, AllocError>
        ensures root { IfOk result (λ tree. root_tree tree ≡ result_of self) }
        ensures end { IfOk result (λ tree. tree.end ≡ end) }
        ensures main { IfOk result (λ tree. tree.main ≡ main) }
    {
        let root = match last_made(&self.children[self.inner.children..]) {
            Some(root) => root,
            None => self.nodes.add(NOTHING, &[], &[])?,
        };
        Ok(Tree::new(self.nodes, root, end, main))
    }
}

/// The last of these children, unless it is absent.
fn last_made(children: &[Option<u32>]) -> Option<u32>
    ensures { result ≡ last_of (reverse children.now) }
{
    let (last, _) = children.split_last()?;
    *last
}

/// The last two of these children, the older first, unless one is absent.
fn last_two(children: &[Option<u32>]) -> Option<(u32, u32)>
    ensures { result ≡ last_two_of (reverse children.now) }
{
    let (right, older) = children.split_last()?;
    let left = last_made(older)?;
    Some((left, (*right)?))
}

/// Adds a node over these children, which begins where this child does, and gives its number.
fn add_over(
    nodes: &mut Nodes,
    kind: NodeKind,
    first: u32,
    children: &[Option<u32>],
) -> Result<u32, AllocError>
    requires first { first < length nodes.old }
    requires children { All (IsBelow (length nodes.old)) children.now }
    ensures added { IfOk result (λ number.
        nodes.new ≡ nodes.old ++ tree_node kind (spot_of (tree_at nodes.old first)) 0 0 []
        (children_at nodes.old children.now) ∷ []) }
    ensures number { IfOk result (λ number. number ≡ length nodes.old) }
    ensures err { OnErr result (nodes.new ≡ nodes.old) }
{
    let label = Label {
        kind,
        spot: nodes.label(first).spot,
        name: 0,
        number: 0,
    };
    nodes.add(label, &[], children)
}

/// The name that a node of this kind has: a routine that gives a number has none.
fn name_in(kind: NodeKind, name: u32) -> u32
    ensures { result ≡ name_in kind name }
{
    match kind {
        NodeKind::Getter(_) => 0,
        _ => name,
    }
}
