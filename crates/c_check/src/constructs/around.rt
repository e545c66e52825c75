//! The constructs around a place.

ghost use Rattle.std.specs.Prelude.{◌≡◌, ◌∷◌, [], length, reverse, IfSome, MatchOption};
ghost use Rattle.std.specs.Option.{option_copied};
ghost use Rattle.c_check.specs.Constructs.{with_newest};
ghost use Rattle.c_check.specs.Around.{AreBelow, numbered};

use crate::constructs::construct::Construct;
use std::marker::Model;

/// The constructs around a place. Contracts see them, the innermost first.
#[derive(Drop)]
pub struct Around<'a> {
    /// The one that began last, if it is around.
    newest: Option<&'a Construct>,
    older: &'a [Construct],
    /// The numbers of the other ones around, the innermost last.
    numbers: &'a [usize],
}

impl<'a> Model for Around<'a> {
    ghost use Rattle.std.specs.Prelude.{List, length, reverse};
    ghost use Rattle.std.specs.Option.{option_copied};
    ghost use Rattle.c_check.specs.Constructs.{Construct, with_newest};
    ghost use Rattle.c_check.specs.Around.{AreBelow, numbered};

    ghost Value = { List Construct };

    ghost view = { λ around. with_newest (option_copied around.newest)
        (numbered around.older.now (reverse around.numbers.now)) };

    ghost invariant = { λ around. AreBelow (length around.older.now) (reverse around.numbers.now) };
}

impl<'a> Around<'a> {
    /// The one that began last, if it is around, and others by their numbers, the innermost last.
    pub fn new(
        newest: Option<&'a Construct>,
        older: &'a [Construct],
        numbers: &'a [usize],
    ) -> Around<'a>
        requires { AreBelow (length older.now) (reverse numbers.now) }
        ensures { result ≡ with_newest (option_copied newest.entry) (numbered older.now (reverse numbers.now)) }
    {
        Around {
            newest,
            older,
            numbers,
        }
    }

    /// The same constructs.
    pub fn again(&self) -> Around<'a>
        ensures { result ≡ self.now }
    {
        Around {
            newest: self.newest,
            older: self.older,
            numbers: self.numbers,
        }
    }

    /// The innermost one, and those around it.
    pub fn split(&self) -> Option<(&'a Construct, Around<'a>)>
        ensures { MatchOption result (self.now ≡ []) (λ parts. self.now ≡ parts.0.now ∷ parts.1) }
    {
        if let Some(newest) = self.newest {
            let outer = Around::new(None, self.older, self.numbers);
            return Some((newest, outer));
        }
        let (first, numbers) = split_numbers(self.older, self.numbers)?;
        let outer = Around::new(None, self.older, numbers);
        Some((first, outer))
    }
}

/// The construct with the last of some numbers, and the other numbers.
fn split_numbers<'a>(
    older: &'a [Construct],
    numbers: &'a [usize],
) -> Option<(&'a Construct, &'a [usize])>
    requires { AreBelow (length older.now) (reverse numbers.now) }
    ensures split { MatchOption result (numbers.now ≡ []) (λ parts.
        numbered older.now (reverse numbers.now) ≡ parts.0.now ∷ numbered older.now (reverse parts.1.now)) }
    ensures below { IfSome result (λ parts. AreBelow (length older.now) (reverse parts.1.now)) }
{
    let (last, numbers) = numbers.split_last()?;
    let first = older.get(*last)?;
    Some((first, numbers))
}
