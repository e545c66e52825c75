//! A source in memory that obeys a script.
ghost use Rattle.std.specs.Prelude.{◌≡◌, ◌≢◌, ◌<◌, ◌≤◌, length, Some};
ghost use Rattle.run_edges.specs.Edges.{Rose, Gives};
ghost use Rattle.run_edges.specs.MemSource.{ReadObeys};

use super::pure_source::PureSource;
use super::script::{Script, Steps};
use super::source::{Got, Source};
use std::marker::Model;

/// A source in memory that tells its bytes, and whose reads obey a script.
///
/// The read that is the script's element k obeys it. Reads past the script give what fits.
#[derive(Drop)]
pub struct MemSource {
    bytes: PureSource,
    steps: Steps,
    faults: u64,
}

// Clauses see the bytes that are left, the steps that are not obeyed yet, and the count of faults.
impl Model for MemSource {
    ghost use Rattle.run_edges.specs.MemSource.{SourceState};

    ghost Value = { SourceState };

    ghost view = { λ s. record { left = s.bytes; script = s.steps; faults = s.faults } };
}

impl MemSource {
    /// A source that has these bytes left, and whose reads obey this script.
    pub fn new(bytes: Vec<u8>, script: Vec<Script>) -> MemSource
        ensures made { result ≡ record { left = bytes.items; script = script.items; faults = 0 } }
    {
        MemSource {
            bytes: PureSource::new(bytes),
            steps: Steps::new(script),
            faults: 0,
        }
    }
}

impl Source for MemSource {
    ghost use Rattle.std.specs.Prelude.{Some};

    ghost left = { λ s. Some s.left };

    ghost faults = { λ s. s.faults };

    fn read(&mut self, buf: &mut [u8]) -> Got
        requires { 0 < length buf.old }
        ensures gives { Gives (Some self.old.left) (Some self.new.left) result buf.new }
        ensures failed { result ≡ Got.Failed → Rose self.old.faults self.new.faults }
        ensures counted { self.old.faults ≤ self.new.faults }
        ensures steady { result ≢ Got.Failed → self.new.faults ≡ self.old.faults }
        ensures obeys { ReadObeys self.old self.new result (length buf.old) }
    {
        match self.steps.next(buf.len()) {
            Some(most) => self.bytes.read(&mut buf[..most]),
            None => {
                self.faults = self.faults.saturating_add(1);
                Got::Failed
            }
        }
    }
}
