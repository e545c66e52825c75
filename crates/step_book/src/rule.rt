//! The rule of the table whose one word is the number of entries, and the kinds of step under it.

ghost use Rattle.std.specs.Prelude.{◌≡◌, List, []};
ghost use Rattle.omp_model.specs.declared.history.Entry.{Entry};
ghost use Rattle.step_book.specs.declared.view.SeatView.TheVariants.{Spent};
ghost use Rattle.step_book.specs.Rule.{HasOneHistory};
ghost use Rattle.step_book.specs.Steps.{first_view, one_more_pass, next_pass, with_pass, with_hold, without_pass, held_pass, LookTells};

use crate::view::SeatView;
use atomic_table::{Join, Play, Split, TableRule};
use std::marker::{Brand, PhantomData};

/// The rule: there is one list of holds, whose entries the word counts. Each pass has seen a beginning of it, beyond
/// which no hold is of the pass's thread.
pub(crate) struct OneHistory;

impl TableRule<(), SeatView, ()> for OneHistory {
    ghost holds = { λ key table. HasOneHistory table };

    ghost first = { λ key. first_view };
}

/// A pass is made for the next thread.
pub(crate) struct Makes;

impl Split<SeatView> for Makes {
    ghost left = { one_more_pass };

    ghost right = { next_pass };
}

/// The book takes in a pass.
pub(crate) struct Takes;

impl Join<SeatView> for Takes {
    ghost both = { with_pass };

    ghost spent = { Spent };
}

/// The book looks at the word, which tells what the pass that it has taken in has seen.
pub(crate) struct Looks;

impl Play<(), SeatView> for Looks {
    ghost then = { λ step before found after. (after ≡ before) × LookTells before.0 };
}

/// The entries that a hold adds.
pub(crate) trait Added {
    ghost entries: { List Entry };
}

impl Added for Brand {
    ghost entries = { [] };
}

/// A hold of the thread whose pass the book has taken in is put last, with the entries of `E`.
pub(crate) struct Adds<E: Added>(PhantomData<E>);

impl<E: Added> Play<(), SeatView> for Adds<E> {
    ghost then = { λ step before found after. after ≡ (with_hold before.0 E.entries, before.1) };
}

/// The book gives the pass back.
pub(crate) struct Gives;

impl Split<SeatView> for Gives {
    ghost left = { without_pass };

    ghost right = { held_pass };
}
