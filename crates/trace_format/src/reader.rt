//! Reading a trace in pieces.

ghost use Rattle.std.specs.Prelude.{◌≡◌, ◌≢◌, ◌≤◌, ◌<◌, ℕ, List, [], ◌++◌, length, take, Some, None, Ok, Err, IfOk, IfErr};
ghost use Rattle.trace_format.specs.declared.item.Item.{Item};
ghost use Rattle.trace_format.specs.declared.refusal.Refusal.{Refusal};
ghost use Rattle.trace_format.specs.Items.{IsRead, given};
ghost use Rattle.trace_format.specs.Refusing.{IsTruncated};
ghost use Rattle.trace_format.specs.Taking.{HasTaken};

use crate::decode::item_in;
use crate::item::Item;
use crate::kept::Kept;
use crate::next::next_field;
use crate::refusal::{Reason, Refusal};
use crate::room::Room;
use std::marker::Model;

/// How many bytes of a piece a reader has taken, and what it has come to with the last of them.
#[derive(Clone, Copy, PartialEq, Eq)]
pub struct Taken {
    /// How many bytes of the piece's front.
    pub used: usize,
    /// The item that ended with them, or [`Item::More`].
    pub item: Item,
}

/// A reader of a trace that comes in pieces. Contracts see what it keeps of the items that it has given, the bytes of an item that has begun, how
/// many bytes it has taken, and its refusal.
#[derive(Drop)]
pub struct Reader {
    /// What is kept of the items that were given.
    kept: Kept,
    /// The bytes of an item that has begun.
    room: Room,
    /// How many fields of the item are whole.
    place: u8,
    /// How many bytes those have.
    begun_at: usize,
    /// How many bytes were taken.
    taken: u64,
    /// The refusal, if there is one.
    refusal: Option<Refusal>,
}

impl Model for Reader {
    ghost use Rattle.std.specs.Prelude.{◌≡◌, None};
    ghost use Rattle.trace_format.specs.Flat.{stage_in};
    ghost use Rattle.trace_format.specs.Holding.{Holds};
    ghost use Rattle.trace_format.specs.Taking.{Reading};

    ghost Value = { Reading };

    ghost view = { λ reader. record {
      stage = stage_in reader.kept;
      begun = reader.room;
      taken = reader.taken;
      refusal = reader.refusal;
    } };

    ghost invariant = { λ reader. reader.refusal ≡ None →
        Holds (stage_in reader.kept) reader.room reader.begun_at reader.place reader.taken };
}

impl Reader {
    /// A reader that has taken nothing. It takes no memory.
    pub fn new() -> Reader
        ensures taken { HasTaken result [] [] }
        ensures unrefused { result.refusal ≡ None }
    {
        Reader {
            kept: Kept {
                header: None,
                count: 0,
                least: 0,
                over: false,
            },
            room: Room::new(),
            place: 0,
            begun_at: 0,
            taken: 0,
            refusal: None,
        }
    }

    /// Takes bytes of the piece up to the end of the next header, event or end mark. [`Item::More`] comes where the whole piece was taken and
    /// none ended.
    ///
    /// Bytes are refused with the last byte of the first field at which no trace begins so, wherever the pieces end. A reader that has refused
    /// takes nothing more, and gives the same refusal. No memory is taken.
    pub fn feed(&mut self, piece: &[u8]) -> Result<Taken, Refusal>
        ensures used { IfOk result (λ taken. taken.used ≤ length piece.now) }
        ensures some { IfOk result (λ taken. 0 < length piece.now → 0 < taken.used) }
        ensures more { IfOk result (λ taken. taken.item ≡ Item.More → taken.used ≡ length piece.now) }
        ensures ends { IfOk result (λ taken. taken.item ≢ Item.More → self.new.begun ≡ []) }
        ensures ok { IfOk result (λ taken. (bytes : List ℕ) (items : List Item) → HasTaken self.old bytes items →
            HasTaken self.new (bytes ++ take taken.used piece.now) (items ++ given taken.item)) }
        ensures open { IfOk result (λ taken. self.new.refusal ≡ None) }
        ensures refused { IfErr result (λ refusal. self.new.refusal ≡ Some refusal) }
        ensures kept { (refusal : Refusal) → self.old.refusal ≡ Some refusal → (result ≡ Err refusal) ×
            (self.new ≡ self.old) }
        ensures up_to { IfErr result (λ refusal. (bytes : List ℕ) (items : List Item) → HasTaken self.old bytes items →
            (used : ℕ) × (used ≤ length piece.now) × HasTaken self.new (bytes ++ take used piece.now) items) }
    {
        if let Some(refusal) = self.refusal {
            return Err(refusal);
        }
        let mut used = 0;
        while used < piece.len() {
            let taken = self.step(&piece[used..])?;
            used += taken.used;
            if taken.item != Item::More {
                return Ok(Taken {
                    used,
                    item: taken.item,
                });
            }
        }
        Ok(Taken {
            used,
            item: Item::More,
        })
    }

    /// Takes bytes up to the end of the field that comes next, or all of them where that hasn't come with them.
    fn step(&mut self, piece: &[u8]) -> Result<Taken, Refusal>
        requires open { self.old.refusal ≡ None }
        requires some { 0 < length piece.now }
        ensures some { IfOk result (λ taken. 0 < taken.used) }
        ensures used { IfOk result (λ taken. taken.used ≤ length piece.now) }
        ensures ends { IfOk result (λ taken. taken.item ≢ Item.More → self.new.begun ≡ []) }
        ensures ok { IfOk result (λ taken. (bytes : List ℕ) (items : List Item) → HasTaken self.old bytes items →
            HasTaken self.new (bytes ++ take taken.used piece.now) (items ++ given taken.item)) }
        ensures open { IfOk result (λ taken. self.new.refusal ≡ None) }
        ensures refused { IfErr result (λ refusal. self.new.refusal ≡ Some refusal) }
        ensures up_to { IfErr result (λ refusal. (bytes : List ℕ) (items : List Item) → HasTaken self.old bytes items →
            (used : ℕ) × (used ≤ length piece.now) × HasTaken self.new (bytes ++ take used piece.now) items) }
    {
        let Some(coming) = next_field(&self.kept, self.place, self.room.as_slice()) else {
            let refusal = Refusal {
                reason: Reason::AfterEnd,
                offset: self.taken,
            };
            self.room.add(&piece[..1]);
            self.taken += 1;
            self.refusal = Some(refusal);
            return Err(refusal);
        };
        let width = coming.test.width();
        let lacking = self.begun_at + width - self.room.len();
        let used = lacking.min(piece.len());
        self.room.add(&piece[..used]);
        self.taken += used as u64;
        if used < lacking {
            return Ok(Taken {
                used,
                item: Item::More,
            });
        }
        let field = &self.room.as_slice()[self.begun_at..];
        if !coming.test.passes(field) {
            let refusal = Refusal {
                reason: Reason::of(coming.field, field),
                offset: self.taken - width as u64,
            };
            self.refusal = Some(refusal);
            return Err(refusal);
        }
        self.begun_at += width;
        self.place += 1;
        if next_field(&self.kept, self.place, self.room.as_slice()).is_some() {
            return Ok(Taken {
                used,
                item: Item::More,
            });
        }
        let item = item_in(&self.kept.header, self.room.as_slice());
        self.kept.count_in(&item);
        self.room.clear();
        self.begun_at = 0;
        self.place = 0;
        Ok(Taken { used, item })
    }

    /// The end of the bytes. They are refused where a field was, and where the end mark hasn't come. No memory is taken.
    pub fn end(&self) -> Result<(), Refusal>
        ensures kept { (refusal : Refusal) → self.now.refusal ≡ Some refusal → result ≡ Err refusal }
        ensures whole { self.now.refusal ≡ None → IfOk result (λ done. (bytes : List ℕ) (items : List Item) →
            HasTaken self.now bytes items →
            IsRead bytes items) }
        ensures truncated { self.now.refusal ≡ None → IfErr result (λ refusal. (bytes : List ℕ) (items : List Item) →
            HasTaken self.now bytes items →
            IsTruncated bytes refusal) }
    {
        if let Some(refusal) = self.refusal {
            return Err(refusal);
        }
        if self.kept.over {
            Ok(())
        } else {
            Err(Refusal {
                reason: Reason::Truncated,
                offset: self.taken,
            })
        }
    }
}
