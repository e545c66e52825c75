//! A sink in memory that obeys a script.
ghost use Rattle.std.specs.Prelude.{◌≡◌, ◌≢◌, ◌<◌, ◌≤◌, [], length, Some, IfOk, IsOk};
ghost use Rattle.run_edges.specs.Edges.{Rose, Takes};
ghost use Rattle.run_edges.specs.MemSink.{WriteObeys};

use super::script::{Script, Steps};
use super::sink::{Sink, Took};
use std::alloc::{AllocError, Global};
use std::marker::Model;

/// No memory was left.
pub type Memory = AllocError;

/// A sink in memory that tells its bytes, has room for so many, and whose writes obey a script.
///
/// The write that is the script's element k obeys it. Writes past the script take what fits the room. A write fails,
/// and raises the count of faults, exactly where the script says so or no room is left.
#[derive(Drop)]
pub struct MemSink {
    bytes: Vec<u8>,
    room: usize,
    steps: Steps,
    faults: u64,
}

// Clauses see the bytes that are held, how many more fit, the steps that are not obeyed yet, and the count of faults.
impl Model for MemSink {
    ghost use Rattle.std.specs.Prelude.{◌+◌, ◌≤◌, vec_len, vec_capacity};
    ghost use Rattle.run_edges.specs.MemSink.{SinkState};

    ghost Value = { SinkState };

    ghost view = { λ s. record { held = s.bytes.items; room = s.room; script = s.steps; faults = s.faults } };

    // So a write that finds room finds the memory too.
    ghost invariant = { λ s. vec_len s.bytes + s.room ≤ vec_capacity s.bytes };
}

impl MemSink {
    /// A sink that holds nothing, has room for `room` bytes, and whose writes obey this script.
    pub fn new(alloc: Global, room: usize, script: Vec<Script>) -> Result<MemSink, Memory>
        ensures made { IfOk result (λ sink.
            sink ≡ record { held = []; room = room; script = script.items; faults = 0 }) }
        ensures roomless { room ≡ 0 → IsOk result }
    {
        Ok(MemSink {
            bytes: Vec::with_capacity(alloc, room)?,
            room,
            steps: Steps::new(script),
            faults: 0,
        })
    }

    /// What the sink holds.
    pub fn bytes(&self) -> &[u8]
        ensures { result.now ≡ self.now.held }
    {
        self.bytes.as_slice()
    }
}

impl Sink for MemSink {
    ghost use Rattle.std.specs.Prelude.{Some};

    ghost held = { λ s. Some s.held };

    ghost faults = { λ s. s.faults };

    fn write(&mut self, piece: &[u8]) -> Took
        requires { 0 < length piece.now }
        ensures takes { Takes (Some self.old.held) (Some self.new.held) result piece.now }
        ensures failed { result ≡ Took.Failed → Rose self.old.faults self.new.faults }
        ensures counted { self.old.faults ≤ self.new.faults }
        ensures steady { result ≢ Took.Failed → self.new.faults ≡ self.old.faults }
        ensures obeys { WriteObeys self.old self.new result piece.now }
    {
        match self.steps.next(piece.len().min(self.room)) {
            None | Some(0) => {
                self.faults = self.faults.saturating_add(1);
                Took::Failed
            }
            Some(count) => {
                // `new` took the memory, so this cannot fail.
                self.bytes.extend_from_slice(&piece[..count]).unwrap();
                self.room -= count;
                Took::Bytes(count)
            }
        }
    }
}
