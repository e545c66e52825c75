//! What takes the items of a trace.

ghost use Rattle.std.specs.Prelude.{◌≡◌, ◌∷◌, [], ◌++◌, List, OnOk, Err};
ghost use Rattle.trace_format.specs.declared.item.Item.{Item as ItemOf};
ghost use Rattle.trace_format.specs.Items.{AreFirst};

use crate::item::Item;

/// What takes the items of a trace, one after the other.
///
/// `took` says what a taker is, by what it was at the start, once it has taken these items; `stopped` says it where it stopped so at one more item.
pub trait Taker {
    /// Why it stops.
    type Stop;

    ghost took: { Self → Self → List ItemOf → Type 0 };

    ghost stopped: { Self → Self → List ItemOf → ItemOf → Self.Stop → Type 0 };

    /// Takes the next item of a trace. It is the header, an event or the end mark. After an error no more items come.
    fn take(&mut self, item: &Item) -> Result<(), Self::Stop>
        ensures took { OnOk result ((start : Self) (items : List ItemOf) → took start self.old items →
            AreFirst (items ++ item.now ∷ []) →
            took start self.new (items ++ item.now ∷ [])) }
        ensures stopped { (stop : Self.Stop) → result ≡ Err stop → (start : Self) (items : List ItemOf) →
            took start self.old items →
            AreFirst (items ++ item.now ∷ []) → stopped start self.new items item.now stop };
}
