//! Reading the items of a trace from a source.

ghost use Rattle.std.specs.Prelude.{◌≡◌, ◌≢◌, ◌∷◌, [], ◌++◌, ℕ, List, None, OnOk, Err};
ghost use Rattle.run_edges.specs.Edges.{Rose};
ghost use Rattle.trace_format.specs.declared.item.Item.{Item as ItemOf};
ghost use Rattle.trace_format.specs.declared.read_end.ReadEnd.{ReadEnd as ReadEndOf};
ghost use Rattle.trace_format.specs.Handing.{HandsOn, IsCutShort};
ghost use Rattle.trace_format.specs.Inputs.{HasReadItems};
ghost use Rattle.trace_format.specs.Items.{AreFirst, given};

use crate::item::Item;
use crate::read_end::ReadEnd;
use crate::reader::Reader;
use crate::taker::Taker;
use run_edges::{Got, Source};

/// The most bytes that one read gives.
const PIECE: usize = 4096;

/// Reads a trace to its end, and hands each item on to the taker as soon as it is whole.
pub fn read_items<S: Source, T: Taker>(source: &mut S, taker: &mut T) -> ReadEnd<T::Stop>
    requires none { T.took taker.old taker.old [] }
    ensures read { HasReadItems result (S.left source.old) (S.left source.new) (T.took taker.old taker.new)
        (T.stopped taker.old taker.new) }
    // A fault was counted, and no count rose without one.
    ensures failed { result ≡ ReadEndOf.ReadFault → Rose (S.faults source.old) (S.faults source.new) }
    ensures steady { result ≢ ReadEndOf.ReadFault → S.faults source.new ≡ S.faults source.old }
{
    let mut reader = Reader::new();
    let mut buffer = [0; PIECE];
    loop {
        match source.read(&mut buffer) {
            Got::Bytes(count) => {
                if let Err(end) = take_piece(&mut reader, taker, &buffer[..count]) {
                    return end;
                }
            }
            Got::End => {
                return match reader.end() {
                    Ok(()) => ReadEnd::Whole,
                    Err(refusal) => ReadEnd::Refused(refusal),
                };
            }
            Got::Failed => return ReadEnd::ReadFault,
        }
    }
}

/// Takes a piece, and hands on the items that end in it.
fn take_piece<T: Taker>(
    reader: &mut Reader,
    taker: &mut T,
    piece: &[u8],
) -> Result<(), ReadEnd<T::Stop>>
    requires open { reader.old.refusal ≡ None }
    ensures open { OnOk result (reader.new.refusal ≡ None) }
    ensures whole { OnOk result ((start : T) (bytes : List ℕ) → HandsOn reader.old bytes (T.took start taker.old) →
        HandsOn reader.new (bytes ++ piece.now) (T.took start taker.new)) }
    ensures cut { (end : ReadEndOf T.Stop) → result ≡ Err end → (start : T) (bytes : List ℕ) →
        HandsOn reader.old bytes (T.took start taker.old) →
        IsCutShort end (bytes ++ piece.now) (T.took start taker.new) (T.stopped start taker.new) }
{
    let mut used = 0;
    while used < piece.len() {
        let taken = match reader.feed(&piece[used..]) {
            Ok(taken) => taken,
            Err(refusal) => return Err(ReadEnd::Refused(refusal)),
        };
        used += taken.used;
        if let Err(stop) = hand_on(taker, &taken.item) {
            return Err(ReadEnd::Stopped(stop));
        }
    }
    Ok(())
}

/// Hands an item on, where one is whole.
fn hand_on<T: Taker>(taker: &mut T, item: &Item) -> Result<(), T::Stop>
    ensures took { OnOk result ((start : T) (items : List ItemOf) → T.took start taker.old items →
        AreFirst (items ++ given item.now) →
        T.took start taker.new (items ++ given item.now)) }
    ensures stopped { (stop : T.Stop) → result ≡ Err stop → (given item.now ≡ item.now ∷ []) ×
        ((start : T) (items : List ItemOf) →
        T.took start taker.old items → AreFirst (items ++ item.now ∷ []) →
        T.stopped start taker.new items item.now stop) }
{
    match item {
        Item::More => Ok(()),
        _ => taker.take(item),
    }
}
