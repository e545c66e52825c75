//! std's readers as sources. That an error of the reader is a failure, and that a read of no bytes is the end, is to be read.
ghost use Rattle.std.specs.Prelude.{◌≡◌, ◌≢◌, ◌<◌, ◌≤◌, length, None};
ghost use Rattle.run_edges.specs.Edges.{raised, Rose, Gives};

use super::source::{Got, Source};
use super::std_stream::StdStream;
use std::io::Read;

impl<R: Read> Source for StdStream<R> {
    ghost use Rattle.std.specs.Prelude.{None};

    ghost left = { λ _. None };

    ghost faults = { λ s. s.faults };

    fn read(&mut self, buf: &mut [u8]) -> Got
        requires { 0 < length buf.old }
        ensures gives { Gives None None result buf.new }
        ensures failed { result ≡ Got.Failed → Rose self.old.faults self.new.faults }
        ensures counted { self.old.faults ≤ self.new.faults }

        // What the reader gave, where it tells that.
        ensures passes { Gives (R.remaining self.old.inner) (R.remaining self.new.inner) result buf.new }

        // The count rises by one at each failure, and stays otherwise.
        ensures raises { result ≡ Got.Failed → self.new.faults ≡ raised self.old.faults }
        ensures steady { result ≢ Got.Failed → self.new.faults ≡ self.old.faults }
    {
        match self.inner.read(buf) {
            Ok(0) => Got::End,
            Ok(count) => Got::Bytes(count),
            Err(_) => {
                self.faults = self.faults.saturating_add(1);
                Got::Failed
            }
        }
    }
}
