//! A rule that a trace breaks.

ghost use Rattle.std.specs.Prelude.{◌≡◌};

/// A rule that a trace breaks.
#[derive(Clone, Copy, Debug, PartialEq, Eq)]
pub struct Breach {
    /// The rule: 1 to 14.
    pub rule: u8,
    /// The position of the event that breaks it: 0 for rule 1, and the last one for rule 13.
    pub seq: u32,
}
