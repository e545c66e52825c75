//! What names are declared as and used as.

ghost use Rattle.std.specs.Prelude.{◌≡◌};
ghost use Rattle.c_check.specs.Here.{is_variable};
ghost use Rattle.c_check.specs.Rules.{calls_main, is_odd_main, is_lock, is_odd_size, is_wrong, is_wrong_return, lacks_value};

use crate::acts::act::{DataClause, Returned, Thing, Usage, Value};
use c_syntax::Returns;

/// The most elements of an array.
const MOST_ELEMENTS: u32 = 4096;

/// Whether an array has a size that none may have.
pub fn is_odd_size(thing: Thing) -> bool
    ensures { result ≡ is_odd_size thing }
{
    match thing {
        Thing::Array(size) => size == 0 || MOST_ELEMENTS < size,
        _ => false,
    }
}

/// Whether it is no function.
pub fn is_variable(thing: Thing) -> bool
    ensures { result ≡ is_variable thing }
{
    !matches!(thing, Thing::Function(_, _))
}

/// Whether it is a lock.
pub fn is_lock(thing: Thing) -> bool
    ensures { result ≡ is_lock thing }
{
    matches!(thing, Thing::Lock)
}

/// Whether a function main may not be so.
pub fn is_odd_main(returns: Returns, parameters: u32) -> bool
    ensures { result ≡ is_odd_main returns parameters }
{
    match returns {
        Returns::Int => parameters > 0,
        Returns::Void => true,
    }
}

/// Whether a call has no value where one is used.
fn lacks_value(returns: Returns, value: Value) -> bool
    ensures { result ≡ lacks_value returns value }
{
    matches!((returns, value), (Returns::Void, Value::Used))
}

/// Whether what is declared so may not be used so.
pub fn is_wrong(thing: Thing, usage: Usage) -> bool
    ensures { result ≡ is_wrong thing usage }
{
    match (thing, usage) {
        (Thing::Int, Usage::Plain | Usage::Listed(_)) => false,
        (Thing::Array(_), Usage::Indexed) => false,
        (Thing::Array(_), Usage::Listed(clause)) => matches!(clause, DataClause::Reduced),
        (Thing::Lock, Usage::Locked) => false,
        (Thing::Lock, Usage::Listed(clause)) => !matches!(clause, DataClause::Shared),
        (Thing::Function(returns, parameters), Usage::Called(arguments, value)) => {
            arguments != parameters || lacks_value(returns, value)
        }
        _ => true,
    }
}

/// Whether main is called.
pub fn calls_main(usage: Usage, is_main: bool) -> bool
    ensures { result ≡ calls_main usage is_main }
{
    matches!(usage, Usage::Called(_, _)) && is_main
}

/// Whether a function that returns this may not return so.
pub fn is_wrong_return(returns: Returns, returned: Returned) -> bool
    ensures { result ≡ is_wrong_return returns returned }
{
    match returns {
        Returns::Int => matches!(returned, Returned::Nothing),
        Returns::Void => matches!(returned, Returned::Something),
    }
}
