//! How constructs see variables, by the constructs around them (OpenMP 5.2, 5.1).

ghost use Rattle.std.specs.Prelude.{◌≡◌, ◌∷◌, true};
ghost use Rattle.std.specs.Option.{unwrap_or};
ghost use Rattle.c_check.specs.Shares.{copies_by_rule, given_by, own_sharing, shared_by_rule, is_shared_or_unsaid, shared_inside, sharing_at};

use crate::acts::act::DataClause;
use crate::constructs::around::Around;
use crate::constructs::construct::Construct;
use crate::rules::nesting::{is_parallel, is_task};
use crate::sharing::Sharing;

/// How a construct sees a variable, with the constructs around it. The variable is one of the file, or it isn't.
pub fn sharing(construct: &Construct, around: Around<'_>, of_file: bool, slot: u32) -> Sharing
    ensures { result ≡ sharing_at (construct.now ∷ around.entry) of_file slot }
{
    match sharing_here(construct, around.again(), of_file, slot) {
        Some(sharing) => sharing,
        None => sharing_at(around, of_file, slot),
    }
}

/// How the innermost of the constructs around sees a variable, or what stands around all of them.
#[tactic(auto, unfolding(crate::specs::Shares::sharing_at))]
fn sharing_at(mut around: Around<'_>, of_file: bool, slot: u32) -> Sharing
    ensures { result ≡ sharing_at around.entry of_file slot }
{
    while let Some((first, outer)) = around.split() {
        if let Some(sharing) = sharing_here(first, outer.again(), of_file, slot) {
            return sharing;
        }
        around = outer;
    }
    Sharing::Shared
}

/// How a construct sees a variable, if it doesn't see it as the one around does.
#[tactic(auto, unfolding(crate::specs::Shares::sharing_at))]
fn sharing_here(
    construct: &Construct,
    outer: Around<'_>,
    of_file: bool,
    slot: u32,
) -> Option<Sharing>
    ensures { unwrap_or result (sharing_at outer.entry of_file slot) ≡
        sharing_at (construct.now ∷ outer.entry) of_file slot }
{
    if let Some(own) = own_sharing(construct, slot) {
        return Some(own);
    }
    if construct.is_inside(slot) {
        return Some(Sharing::Local);
    }
    let directive = construct.head().directive;
    if is_parallel(directive) {
        return Some(Sharing::Shared);
    }
    if !is_task(directive) {
        return None;
    }
    if construct.clauses().default_shared || is_shared_by_rule(outer, of_file, slot) {
        return Some(Sharing::Shared);
    }
    Some(Sharing::First)
}

/// Whether a construct is a task that has a copy of a variable by rule, where those around it share the variable or don't.
pub fn copies_by_rule(construct: &Construct, by_rule: bool, slot: u32) -> bool
    ensures { result ≡ copies_by_rule construct.now by_rule slot }
{
    is_task(construct.head().directive)
        && own_sharing(construct, slot).is_none()
        && !(construct.is_inside(slot) || construct.clauses().default_shared || by_rule)
}

/// Whether a task inside of a construct shares a variable of which it says nothing, where one around the construct does or doesn't.
pub fn shared_inside(construct: &Construct, by_rule: bool, slot: u32) -> bool
    ensures { result ≡ shared_inside construct.now by_rule slot }
{
    let shares = shares_or_says_nothing(construct, slot);
    if is_parallel(construct.head().directive) {
        !construct.is_inside(slot) && shares
    } else {
        shares && by_rule
    }
}

/// Whether a task that says nothing of a variable shares it.
#[tactic(auto, unfolding(crate::specs::Shares::shared_by_rule))]
fn is_shared_by_rule(mut around: Around<'_>, of_file: bool, slot: u32) -> bool
    ensures { result ≡ shared_by_rule around.entry of_file slot }
{
    while let Some((first, outer)) = around.split() {
        let shares = shares_or_says_nothing(first, slot);
        if is_parallel(first.head().directive) {
            return !first.is_inside(slot) && shares;
        }
        if !shares {
            return false;
        }
        around = outer;
    }
    of_file
}

/// Whether a construct says of a variable that it is shared, or nothing.
fn shares_or_says_nothing(construct: &Construct, slot: u32) -> bool
    ensures { result ≡ is_shared_or_unsaid (own_sharing construct.now slot) }
{
    match own_sharing(construct, slot) {
        Some(own) => own == Sharing::Shared,
        None => true,
    }
}

/// What a construct itself says of a variable: that of its loop is private, and else a data clause counts.
fn own_sharing(construct: &Construct, slot: u32) -> Option<Sharing>
    ensures { result ≡ own_sharing construct.now slot }
{
    if construct.has_loop(slot) {
        return Some(Sharing::Private);
    }
    Some(given_by(construct.mention(slot)?))
}

/// The sharing that a data clause gives.
fn given_by(clause: DataClause) -> Sharing
    ensures { result ≡ given_by clause }
{
    match clause {
        DataClause::Shared => Sharing::Shared,
        DataClause::Private => Sharing::Private,
        DataClause::First => Sharing::First,
        DataClause::Reduced => Sharing::Reduced,
    }
}
