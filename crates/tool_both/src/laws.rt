//! What the definitions come to.

ghost use Rattle.std.specs.Prelude.{ℕ, List};
ghost use Rattle.ompt_calls.specs.Item.{Item};
ghost use Rattle.tool_both.specs.Joined.{AreOwn, IsSplit};

/// A law: of the events that two tools are told of together each hears exactly those in its own mask, in their order, each with the same
/// position, thread, call and snapshot.
pub fn each_hears_its_own()
    ensures { (m n : ℕ) (items first second : List Item) → IsSplit m n items first second → AreOwn m first items ×
        AreOwn n second items }
{}
