//! What a frame says of what stands next.

ghost use Rattle.std.specs.Prelude.{◌≡◌, ◌<◌, ◌+◌, ◌∷◌, [], length, IfNone, IfSome};
ghost use Rattle.c_syntax.specs.language.Tree.{kind_of};
ghost use Rattle.c_syntax.specs.language.Numbered.{tree_at};
ghost use Rattle.c_steps.specs.Items.{declarators_from, item_at};
ghost use Rattle.c_steps.specs.Looking.{Looks};
ghost use Rattle.c_steps.specs.Ready.{IsFrame, IsItem};
ghost use Rattle.c_steps.specs.Trying.{Shows, item_of};
ghost use Rattle.c_model.specs.Task.{item_of_part};
ghost use Rattle.c_steps.specs.declared.frame.Frame.TheVariants.{Parts as parts_frame, Combining as reductions_frame};

use crate::code::Code;
use crate::frame::Frame;
use crate::item::Item;
use crate::listed::{Copying, ListedPlace, next_listed};
use crate::node::Node;
use c_syntax::NodeKind;

/// What stands next, where it is no part of a construct. Each stands for the item of the same name.
#[derive(Clone, Copy)]
pub(crate) enum Plain {
    Start(u32),
    Declare(u32),
    Leave(usize),
    Test { node: u32, names: usize },
    Third { node: u32, names: usize },
    Return(i32),
    FallOff,
}

/// What a frame says of what stands next, where that is plain.
#[derive(Clone, Copy)]
pub(crate) enum Shown {
    /// This stands next.
    Next(Plain),
    /// Another frame says the same.
    Instead(Frame),
}

/// What a frame on top says of what stands next.
#[derive(Clone, Copy)]
pub(crate) enum Look {
    /// This item stands next.
    Found(Item),
    /// Another frame says the same.
    Instead(Frame),
    /// Nothing is left of it.
    Over,
    /// Nothing stands next in this function.
    Nothing,
}

/// What a frame on top says of what stands next.
#[tactic(auto, using(crate::proofs::Looking::shown_cases))]
#[inline(always)]
pub(crate) fn look_at(code: &Code, frame: &Frame) -> Look
    requires { IsFrame code.now frame.now }
    ensures { Looks code.now frame.now result }
{
    // The two items that stand next most often have arms of their own, so that nothing else of an item is copied for them.
    match *frame {
        Frame::One(Item::Start(part)) => Look::Found(Item::Start(part)),
        Frame::One(Item::Leave(names)) => Look::Found(Item::Leave(names)),
        Frame::One(item) => Look::Found(item),
        Frame::Parts {
            block,
            place,
            at,
            names,
        } => match shown_part(code, block, place, at, names) {
            Shown::Next(plain) => Look::Found(item_of(plain)),
            Shown::Instead(other) => Look::Instead(other),
        },
        Frame::Combining {
            construct,
            from,
            names,
        } => look_at_reductions(code, construct, from, names),
        Frame::Combines {
            operator,
            name,
            names,
            ..
        } => Look::Found(Item::Combine {
            operator,
            name,
            names,
        }),
        Frame::Caller { .. } => Look::Nothing,
    }
}

/// What the reductions of a construct say that are left.
#[inline(never)]
fn look_at_reductions(code: &Code, construct: u32, from: ListedPlace, names: usize) -> Look
    requires { construct < length code.now.trees }
    ensures { Looks code.now (reductions_frame construct from names) result }
{
    let number = construct;
    match next_listed(Node { code, number }, from) {
        None => Look::Over,
        Some(found) => match found.listed.copying {
            Copying::Reduced(operator) => Look::Instead(Frame::Combines {
                operator,
                name: found.listed.name,
                construct,
                from: found.next,
                names,
            }),
            Copying::Private | Copying::First => Look::Instead(Frame::Combining {
                construct,
                from: found.next,
                names,
            }),
        },
    }
}

/// What the parts of a block say that are left.
#[tactic(auto, using(crate::proofs::Looking::instead_cases))]
#[inline(always)]
fn shown_part(code: &Code, block: u32, place: u32, at: u32, names: usize) -> Shown
    requires { block < length code.now.trees }
    ensures { Shows code.now (parts_frame block place at names) result }
{
    let Some(part) = code.part(Some(block), place) else {
        return Shown::Instead(Frame::One(Item::Leave(names)));
    };
    match declarator(code, part, at) {
        None => Shown::Instead(Frame::Parts {
            block,
            place: place + 1,
            at: 0,
            names,
        }),
        Some(node) => Shown::Next(plain_part(code, node)),
    }
}

/// A part of a block.
#[inline(always)]
fn plain_part(code: &Code, node: u32) -> Plain
    requires { node < length code.now.trees }
    ensures item { item_at code.now (item_of result) ≡ item_of_part (tree_at code.now.trees node) }
    ensures is_item { IsItem code.now (item_of result) }
{
    match code.kind(Some(node)) {
        NodeKind::Name | NodeKind::LocalVar | NodeKind::LocalArray | NodeKind::LocalSet => {
            Plain::Declare(node)
        }
        _ => Plain::Start(node),
    }
}

/// What a frame on top says of what stands next, where that is plain.
#[tactic(auto, using(crate::proofs::Looking::shows_plain))]
#[inline(always)]
pub(crate) fn plain_look(code: &Code, frame: &Frame) -> Option<Shown>
    requires { IsFrame code.now frame.now }
    ensures { IfSome result (Shows code.now frame.now) }
{
    match frame {
        Frame::One(item) => Some(Shown::Next(plain_item(item)?)),
        Frame::Parts {
            block,
            place,
            at,
            names,
        } => Some(shown_part(code, *block, *place, *at, *names)),
        _ => None,
    }
}

/// The item, if it is a plain one.
#[inline(always)]
fn plain_item(item: &Item) -> Option<Plain>
    ensures { IfSome result (λ plain. item.now ≡ item_of plain) }
{
    match *item {
        Item::Start(Some(node)) => Some(Plain::Start(node)),
        Item::Leave(names) => Some(Plain::Leave(names)),
        Item::Test { node, names } => Some(Plain::Test { node, names }),
        Item::Third { node, names } => Some(Plain::Third { node, names }),
        Item::Return(number) => Some(Plain::Return(number)),
        Item::FallOff => Some(Plain::FallOff),
        _ => None,
    }
}

/// A plain item.
#[inline(always)]
fn item_of(plain: Plain) -> Item
    ensures { result ≡ item_of plain }
{
    match plain {
        Plain::Start(node) => Item::Start(Some(node)),
        Plain::Declare(node) => Item::Declare(node),
        Plain::Leave(names) => Item::Leave(names),
        Plain::Test { node, names } => Item::Test { node, names },
        Plain::Third { node, names } => Item::Third { node, names },
        Plain::Return(number) => Item::Return(number),
        Plain::FallOff => Item::FallOff,
    }
}

/// The declarator of a part of a block behind so many. What declares no names is its own only one.
#[inline(always)]
fn declarator(code: &Code, part: u32, at: u32) -> Option<u32>
    requires { part < length code.now.trees }
    ensures found { IfSome result (λ node.
        declarators_from (kind_of (tree_at code.now.trees part)) (tree_at code.now.trees part) at ≡
        tree_at code.now.trees node ∷ declarators_from (kind_of (tree_at code.now.trees part))
        (tree_at code.now.trees part) (at + 1)) }
    ensures none { IfNone result (declarators_from (kind_of (tree_at code.now.trees part))
        (tree_at code.now.trees part) at ≡ []) }
    ensures node { IfSome result (λ node. node < length code.now.trees) }
    ensures fits { IfSome result (λ node. at < 4294967295) }
{
    match code.kind(Some(part)) {
        NodeKind::Globals | NodeKind::Locals | NodeKind::Locks => code.part(Some(part), at),
        _ if at == 0 => Some(part),
        _ => None,
    }
}
