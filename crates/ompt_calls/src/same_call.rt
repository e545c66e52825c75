//! Which calls are equal. Derived, the comparison would have an arm for each callback, and each arm a proof; over the arguments it has one.

ghost use Rattle.std.specs.Prelude.{nat_eq};
ghost use Rattle.std.specs.Cmp.{and_equiv, nat_eq_equiv, on_equiv, partial_equiv_from_equiv};
ghost use Rattle.std.specs.Cmp.Lexicographic.{lists_equiv, pointwise};
ghost use Rattle.std.specs.Ordering.{eq_of_both, on};
ghost use Rattle.ompt_calls.specs.contracts.argument.ArgumentEq.TheImpl.Laws.{laws-law as argument_law};
ghost use Rattle.ompt_calls.specs.Arguments.{arguments_of};
ghost use Rattle.ompt_calls.specs.Number.{number_of};

use crate::argument::Argument;
use crate::call::Call;

/// Calls are equal where they are of one callback and have the same arguments.
impl PartialEq for Call {
    ghost eq = { eq_of_both (on number_of nat_eq) (on arguments_of (pointwise ⟦<Argument as PartialEq>⟧.eq)) };

    ghost laws = { partial_equiv_from_equiv (and_equiv (on_equiv number_of nat_eq_equiv)
        (on_equiv arguments_of (lists_equiv argument_law))) };

    fn eq(&self, other: &Call) -> bool {
        self.number() == other.number()
            && self.arguments().as_slice() == other.arguments().as_slice()
    }
}

impl Eq for Call {
    ghost laws = { and_equiv (on_equiv number_of nat_eq_equiv) (on_equiv arguments_of (lists_equiv argument_law)) };
}
