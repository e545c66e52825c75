//! What the acts of a node take from the node and its children.

ghost use Rattle.std.specs.Prelude.{◌≡◌, ◌<◌, length};
ghost use Rattle.c_syntax.specs.language.Tree.{children_of, number_of};
ghost use Rattle.c_syntax.specs.language.Numbered.{tree_at};
ghost use Rattle.c_check.specs.NameLists as lists;
ghost use Rattle.c_check.specs.Printed as printed;
ghost use Rattle.c_check.specs.Usages as usages;
ghost use Rattle.c_check.specs.Steps.{passes};

use crate::acts::act::{Act, Printed, Returned, Thing, Usage, Value};
use crate::acts::role::{Naming, Role};
use c_syntax::{NodeKind, Tree};

/// Whether a node does what its children do, and nothing else.
pub fn passes_on(kind: NodeKind) -> bool
    ensures { result ≡ passes kind }
{
    matches!(
        kind,
        NodeKind::Program
            | NodeKind::Globals
            | NodeKind::Locals
            | NodeKind::If
            | NodeKind::While
            | NodeKind::Step
            | NodeKind::Called
            | NodeKind::Binary(_)
            | NodeKind::Unary(_)
            | NodeKind::Paren
            | NodeKind::Section
    )
}

/// The value of a node's number, 0 where it has none.
pub fn number_at(tree: &Tree, node: u32) -> u32
    requires { node < length tree.now.trees }
    ensures { result ≡ number_of (tree_at tree.now.trees node) }
{
    tree.number(node) as u32
}

/// What a name in a list does.
pub fn named(tree: &Tree, why: Naming, node: u32) -> Act
    requires { node < length tree.now.trees }
    ensures { result ≡ lists.named why (tree_at tree.now.trees node) }
{
    let (name, spot) = (tree.name(node), tree.spot(node));
    match why {
        Naming::Parameters => Act::Declare {
            name,
            spot,
            thing: Thing::Int,
        },
        Naming::Locks => Act::Declare {
            name,
            spot,
            thing: Thing::Lock,
        },
        Naming::Locked => Act::Use {
            name,
            spot,
            usage: Usage::Locked,
        },
        Naming::Mentioned(clause) => Act::Use {
            name,
            spot,
            usage: Usage::Listed(clause),
        },
        Naming::Listed(clause) => Act::List { name, spot, clause },
    }
}

/// What a place is used as.
pub fn place_usage(tree: &Tree, node: u32) -> Usage
    requires { node < length tree.now.trees }
    ensures { result ≡ usages.place_usage (children_of (tree_at tree.now.trees node)) }
{
    match tree.child(node, 0) {
        Some(_) => Usage::Indexed,
        None => Usage::Plain,
    }
}

/// Whether the value of a call is used.
pub fn value_of(role: Role) -> Value
    ensures { result ≡ usages.call_value role }
{
    match role {
        Role::Used => Value::Used,
        _ => Value::Dropped,
    }
}

/// Whether something follows a `return`.
pub fn returned_of(tree: &Tree, node: u32) -> Returned
    requires { node < length tree.now.trees }
    ensures { result ≡ usages.returned_of (children_of (tree_at tree.now.trees node)) }
{
    match tree.child(node, 0) {
        Some(_) => Returned::Something,
        None => Returned::Nothing,
    }
}

/// How many numbers a text of `printf` asks for, or `None` where a percent sign has another byte behind it than `d` or a second
/// one.
pub fn numbers_in(text: &[u8]) -> Option<usize>
    ensures { result ≡ printed.numbers_in text.now }
{
    let mut numbers = 0;
    // Whether a percent sign stands before the byte, with nothing before it that it belongs to.
    let mut asks = false;
    for byte in text {
        if asks {
            match *byte {
                b'd' => numbers += 1,
                b'%' => {}
                _ => return None,
            }
        }
        asks = !asks && *byte == b'%';
    }
    if asks { None } else { Some(numbers) }
}

/// Whether a text asks for as many numbers as there are arguments.
pub fn as_many(numbers: Option<usize>, count: u32) -> Printed
    ensures { result ≡ printed.as_many numbers count }
{
    match numbers {
        Some(numbers) if numbers == count as usize => Printed::Right,
        _ => Printed::Wrong,
    }
}
