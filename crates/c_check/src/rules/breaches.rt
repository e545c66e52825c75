//! What an act breaks in the constructs around.

ghost use Rattle.std.specs.Prelude.{◌≡◌, map};
ghost use Rattle.std.specs.Option.{option_copied};
ghost use Rattle.c_check.specs.Rules.{has_single, is_empty_chunk, is_listed, newest_spot, not_listed, spoiled, wrong_clause};
ghost use Rattle.c_check.specs.Faults.{first_of};

use crate::acts::act::Single;
use crate::constructs::around::Around;
use crate::constructs::construct::Construct;
use crate::constructs::inner_loops::InnerLoops;
use crate::constructs::parts::{Clauses, Unlisted};
use crate::fault::CheckFault;
use crate::rules::finding::sooner;
use crate::scopes::declared::Declared;
use c_tokens::Spot;

/// The first fault, with that of a clause of the construct that began last which stands twice, or has a chunk without iterations.
#[tactic(auto, unfolding(crate::specs::Faults::first_of))]
pub fn wrong_clause(
    newest: Option<&Construct>,
    single: Single,
    found: Option<CheckFault>,
) -> Option<CheckFault>
    ensures { result ≡ first_of found (map CheckFault.WrongUse (wrong_clause single (option_copied newest.entry))) }
{
    match newest {
        Some(newest) if is_empty_chunk(single) || has_single(newest.clauses(), single) => {
            sooner(found, CheckFault::WrongUse(newest.head().spot))
        }
        _ => found,
    }
}

/// Whether a directive has this clause.
fn has_single(clauses: Clauses, single: Single) -> bool
    ensures { result ≡ has_single clauses single }
{
    match single {
        Single::NumThreads => clauses.num_threads,
        Single::Default(_) => clauses.default_shared || clauses.default_none,
        Single::Schedule(_) => clauses.schedule,
        Single::Nowait => clauses.nowait,
        Single::If => clauses.condition,
    }
}

fn is_empty_chunk(single: Single) -> bool
    ensures { result ≡ is_empty_chunk single }
{
    match single {
        Single::Schedule(chunk) => chunk == 0,
        _ => false,
    }
}

/// Whether a data clause of the construct that began last has the variable already.
pub fn is_listed(newest: Option<&Construct>, variable: Option<Declared>) -> bool
    ensures { result ≡ is_listed variable (option_copied newest.entry) }
{
    match (variable, newest) {
        (Some(variable), Some(newest)) => newest.mention(variable.slot).is_some(),
        _ => false,
    }
}

/// The first fault, with those of the constructs around whose loop has this variable.
#[tactic(auto, unfolding(crate::specs::Faults::first_of, crate::specs::Rules::spoiled))]
pub fn spoiled(
    mut around: Around<'_>,
    slot: u32,
    mut found: Option<CheckFault>,
) -> Option<CheckFault>
    ensures { result ≡ first_of found (map CheckFault.BadLoop (spoiled slot around.entry)) }
{
    while let Some((first, outer)) = around.split() {
        if first.has_loop(slot) {
            found = sooner(found, CheckFault::BadLoop(first.head().spot));
        }
        around = outer;
    }
    found
}

/// The first fault, with that of the construct that began last, whose statement is no loop that can be shared out.
#[tactic(auto, unfolding(crate::specs::Faults::first_of))]
pub fn bad_loop(newest: Option<&Construct>, found: Option<CheckFault>) -> Option<CheckFault>
    ensures { result ≡ first_of found (map CheckFault.BadLoop (newest_spot (option_copied newest.entry))) }
{
    match newest {
        Some(newest) => sooner(found, CheckFault::BadLoop(newest.head().spot)),
        None => found,
    }
}

/// The first fault, with those of the uses of variables that a construct doesn't list and that aren't those of loops inside it.
#[tactic(auto, unfolding(crate::specs::Faults::first_of, crate::specs::Rules::not_listed))]
pub fn not_listed(
    loops: &InnerLoops,
    unlisted: &[Unlisted],
    mut found: Option<CheckFault>,
) -> Option<CheckFault>
    ensures { result ≡ first_of found (map CheckFault.NotListed (not_listed loops.now unlisted.now)) }
{
    for used in unlisted {
        if !loops.has(used.slot, used.construct) {
            found = sooner(found, CheckFault::NotListed(used.spot));
        }
    }
    found
}
