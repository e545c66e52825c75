//! std's writers as sinks. An error of the writer is a failure, and so is a write that takes nothing: no clause says so, the match does.
ghost use Rattle.std.specs.Prelude.{◌≡◌, ◌≢◌, ◌<◌, ◌≤◌, length, None};
ghost use Rattle.run_edges.specs.Edges.{raised, Rose, Takes};

use super::sink::{Sink, Took};
use super::std_stream::StdStream;
use std::io::Write;

impl<W: Write> Sink for StdStream<W> {
    ghost use Rattle.std.specs.Prelude.{None};

    ghost held = { λ _. None };

    ghost faults = { λ s. s.faults };

    fn write(&mut self, piece: &[u8]) -> Took
        requires { 0 < length piece.now }
        ensures takes { Takes None None result piece.now }
        ensures failed { result ≡ Took.Failed → Rose self.old.faults self.new.faults }
        ensures counted { self.old.faults ≤ self.new.faults }

        // What the writer took, where it tells that.
        ensures passes { Takes (W.contents self.old.inner) (W.contents self.new.inner) result piece.now }

        // The count rises by one at each failure, and stays otherwise.
        ensures raises { result ≡ Took.Failed → self.new.faults ≡ raised self.old.faults }
        ensures steady { result ≢ Took.Failed → self.new.faults ≡ self.old.faults }
    {
        match self.inner.write(piece) {
            Ok(0) | Err(_) => {
                self.faults = self.faults.saturating_add(1);
                Took::Failed
            }
            Ok(count) => Took::Bytes(count),
        }
    }
}
