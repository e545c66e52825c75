//! What a run writes to.

/// What a write answered.
#[derive(Clone, Copy, Debug, PartialEq, Eq)]
pub enum Took {
    /// So many bytes, from 1 to the length of the piece, were taken from the piece's front.
    Bytes(usize),
    /// The write failed, and took nothing.
    Failed,
}

/// Where bytes go.
pub trait Sink {
    ghost use Rattle.std.specs.Prelude.{ℕ, ◌<◌, ◌≤◌, ◌≡◌, ◌≢◌, List, Option, length};
    ghost use Rattle.run_edges.specs.Edges.{Rose, Takes};

    ghost held: { Self → Option (List ℕ) };

    ghost faults: { Self → ℕ };

    /// Appends some bytes of the front of `piece`. A write that takes nothing is a fault.
    ///
    /// `held` is the bytes that the sink holds, where it tells them, and `faults` counts the writes that failed.
    fn write(&mut self, piece: &[u8]) -> Took
        requires { 0 < length piece.now }
        ensures takes { Takes (held self.old) (held self.new) result piece.now }
        ensures failed { result ≡ Took.Failed → Rose (faults self.old) (faults self.new) }
        ensures counted { faults self.old ≤ faults self.new }
        // A write that doesn't fail isn't counted.
        ensures steady { result ≢ Took.Failed → faults self.new ≡ faults self.old };
}
