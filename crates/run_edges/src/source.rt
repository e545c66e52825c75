//! What a run reads from.

/// What a read answered.
#[derive(Clone, Copy, Debug, PartialEq, Eq)]
pub enum Got {
    /// So many bytes, from 1 to the length of the buffer, were put at the buffer's front.
    Bytes(usize),
    /// No byte is left.
    End,
    /// The read failed, and gave nothing.
    Failed,
}

/// Where bytes come from.
pub trait Source {
    ghost use Rattle.std.specs.Prelude.{ℕ, ◌<◌, ◌≤◌, ◌≡◌, ◌≢◌, List, Option, length};
    ghost use Rattle.run_edges.specs.Edges.{Rose, Gives};

    ghost left: { Self → Option (List ℕ) };

    ghost faults: { Self → ℕ };

    /// Reads some bytes into the front of `buf`.
    ///
    /// `left` is the bytes that are left, where the source tells them, and `faults` counts the reads that failed.
    fn read(&mut self, buf: &mut [u8]) -> Got
        requires { 0 < length buf.old }
        ensures gives { Gives (left self.old) (left self.new) result buf.new }
        ensures failed { result ≡ Got.Failed → Rose (faults self.old) (faults self.new) }
        ensures counted { faults self.old ≤ faults self.new }
        // A read that doesn't fail isn't counted.
        ensures steady { result ≢ Got.Failed → faults self.new ≡ faults self.old };
}
