//! Which of two faults is told.

ghost use Rattle.std.specs.Prelude.{◌≡◌};
ghost use Rattle.c_check.specs.Standing.{if_so};
ghost use Rattle.c_check.specs.Faults.{comes_first, first_of, is_earlier, is_same_spot, sooner};

use crate::fault::CheckFault;
use c_tokens::Spot;

/// The one that is told of the fault that is known, if there is one, and another where this is so.
#[tactic(auto, unfolding(crate::specs::Faults::first_of))]
pub fn sooner_if(known: Option<CheckFault>, broken: bool, found: CheckFault) -> Option<CheckFault>
    ensures { result ≡ first_of known (if_so broken found) }
{
    if broken { sooner(known, found) } else { known }
}

/// The one that is told of the fault that is known, if there is one, and another.
pub fn sooner(known: Option<CheckFault>, found: CheckFault) -> Option<CheckFault>
    ensures { result ≡ sooner known found }
{
    match known {
        Some(first) if !comes_first(found, first) => Some(first),
        _ => Some(found),
    }
}

/// Whether a fault is told before another: its place comes first, or at one place its number is less.
fn comes_first(first: CheckFault, second: CheckFault) -> bool
    ensures { result ≡ comes_first first second }
{
    let (here, there) = (first.spot(), second.spot());
    is_earlier(here, there) || is_same_spot(here, there) && first.number() < second.number()
}

fn is_earlier(first: Spot, second: Spot) -> bool
    ensures { result ≡ is_earlier first second }
{
    first.line < second.line || first.line == second.line && first.column < second.column
}

fn is_same_spot(first: Spot, second: Spot) -> bool
    ensures { result ≡ is_same_spot first second }
{
    first.line == second.line && first.column == second.column
}
