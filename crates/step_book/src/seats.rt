//! The steps under the rule, by the book's seat and the badges of the passes.

ghost use Rattle.std.specs.Prelude.{◌≡◌, ◌<◌, List, [], ◌∷◌, length, IfOk};
ghost use Rattle.step_book.specs.Steps.{first_view, one_more_pass, next_pass, with_pass, LookTells, HasRoom, with_hold, without_pass, held_pass, view_in, IsBadge};

use crate::rule::{Added, Adds, Gives, Looks, Makes, OneHistory, Takes};
use crate::view::SeatView;
use atomic_table::{Badge, Seat, Shared, Table};
use omp_model::Entry;
use std::alloc::{AllocError, Global};
use std::marker::Brand;
use std::mem;

/// The table of one word, the number of entries, which all threads share.
pub(crate) type SharedCount = Shared<(), SeatView, (), OneHistory>;

/// The same with its memory.
pub(crate) type CountTable = Table<(), SeatView, (), OneHistory, Global>;

/// The seat of the book, which alone steps.
pub(crate) type BookSeat = Seat<(), SeatView>;

/// Makes the table, and the seat of a book with no hold, of which no pass was made.
pub(crate) fn new_table(alloc: Global) -> Result<(CountTable, BookSeat), AllocError>
    ensures word { IfOk result (λ made. made.0.shared.table_id.words ≡ 1) }
    ensures seat { IfOk result (λ made. made.1.table_id ≡ made.0.shared.table_id) }
    ensures view { IfOk result (λ made. made.1.me ≡ (first_view, [])) }
{
    Table::of_words(alloc, &[0], &())
}

/// Makes a pass for the next thread. It has seen no hold.
pub(crate) fn new_pass(count: &SharedCount, seat: &mut BookSeat) -> Badge<SeatView>
    requires word { 0 < count.now.table_id.words }
    requires seat { seat.old.table_id ≡ count.now.table_id }
    ensures seat { seat.new.table_id ≡ count.now.table_id }
    ensures view { seat.new.me ≡ (one_more_pass seat.old.me.0, seat.old.me.1) }
    ensures pass { result.table_id ≡ count.now.table_id }
    ensures pass_view { result.views ≡ next_pass seat.old.me.0 ∷ [] }
{
    count.split_seat::<Makes>(seat).into_badge()
}

/// The book takes in a pass, in place of any that it had, and is told what the pass has seen. The badge is blank then.
pub(crate) fn take_pass(count: &SharedCount, seat: &mut BookSeat, pass: &mut Badge<SeatView>)
    requires word { 0 < count.now.table_id.words }
    requires seat { seat.old.table_id ≡ count.now.table_id }
    requires pass { pass.old.table_id ≡ count.now.table_id }
    requires badge { IsBadge pass.old.views }
    ensures seat { seat.new.table_id ≡ count.now.table_id }
    ensures view { seat.new.me ≡ (with_pass seat.old.me.0 (view_in pass.old.views), seat.old.me.1) }
    ensures told { LookTells seat.new.me.0 }
    ensures blank { pass.new.views ≡ [] }
{
    let taken = mem::replace(pass, Badge::blank());
    count.join_seat::<Takes>(seat, taken.into_seat());
    count.load::<Looks>(seat, 0);
}

/// Puts last the hold of the pass that the book has taken in, with these entries, which the word counts.
pub(crate) fn add_hold(count: &SharedCount, seat: &mut BookSeat, entries: &[Entry])
    requires word { 0 < count.now.table_id.words }
    requires seat { seat.old.table_id ≡ count.now.table_id }
    requires room { HasRoom seat.old.me.0 (length entries.now) }
    ensures seat { seat.new.table_id ≡ count.now.table_id }
    ensures view { seat.new.me ≡ (with_hold seat.old.me.0 entries.now, seat.old.me.1) }
{
    add_hold_as::<Brand>(count, seat, entries);
}

// The same, where `E` has the entries: the kind of a step has no parameter but a type.
fn add_hold_as<E: Added>(count: &SharedCount, seat: &mut BookSeat, entries: &[Entry])
    requires word { 0 < count.now.table_id.words }
    requires seat { seat.old.table_id ≡ count.now.table_id }
    requires entries { E.entries ≡ entries.now }
    requires room { HasRoom seat.old.me.0 (length entries.now) }
    ensures seat { seat.new.table_id ≡ count.now.table_id }
    ensures view { seat.new.me ≡ (with_hold seat.old.me.0 entries.now, seat.old.me.1) }
{
    count.fetch_add::<Adds<E>>(seat, 0, entries.len() as u64);
}

/// The book gives back the pass that it had taken in.
pub(crate) fn give_pass(count: &SharedCount, seat: &mut BookSeat, pass: &mut Badge<SeatView>)
    requires word { 0 < count.now.table_id.words }
    requires seat { seat.old.table_id ≡ count.now.table_id }
    ensures seat { seat.new.table_id ≡ count.now.table_id }
    ensures view { seat.new.me ≡ (without_pass seat.old.me.0, seat.old.me.1) }
    ensures pass { pass.new.table_id ≡ count.now.table_id }
    ensures pass_view { pass.new.views ≡ held_pass seat.old.me.0 ∷ [] }
{
    *pass = count.split_seat::<Gives>(seat).into_badge();
}
