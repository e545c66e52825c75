//! std's readers and writers, with the count of their faults.
ghost use Rattle.std.specs.Prelude.{◌≡◌};

use std::marker::Model;

/// A reader of std as a source, or a writer as a sink. It tells no content.
///
/// Its count of faults rises at each failure. What a failure is, and that a read of no bytes is the end, is to be read.
#[derive(Drop)]
pub struct StdStream<T> {
    pub(super) inner: T,
    pub(super) faults: u64,
}

/// A reader of std as a source that tells no content.
pub type StdSource<R> = StdStream<R>;

/// A writer of std as a sink that tells no content.
pub type StdSink<W> = StdStream<W>;

// Clauses see the reader or the writer, and the count of faults.
impl<T> Model for StdStream<T> {
    ghost use Rattle.run_edges.specs.Adapted.{Adapted};

    ghost Value = { Adapted T };

    ghost view = { λ s. record { inner = s.inner; faults = s.faults } };
}

impl<T> StdStream<T> {
    /// A source over this reader, or a sink over this writer, with no fault counted yet.
    pub fn new(inner: T) -> StdStream<T>
        ensures made { result ≡ record { inner = inner; faults = 0 } }
    {
        StdStream { inner, faults: 0 }
    }
}
