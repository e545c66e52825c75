//! A source that never fails.
ghost use Rattle.std.specs.Prelude.{◌≡◌, ◌≢◌, ◌<◌, length, Some};
ghost use Rattle.run_edges.specs.Edges.{Gives};
ghost use Rattle.run_edges.specs.PureSource.{GivesWhatFits};

use super::source::{Got, Source};
use std::marker::Model;

/// A source in memory that never fails, and gives what fits.
#[derive(Drop)]
pub struct PureSource {
    bytes: Vec<u8>,
    given: usize,
}

// Clauses see the bytes that are left.
impl Model for PureSource {
    ghost use Rattle.std.specs.Prelude.{ℕ, List, drop, ◌≤◌, vec_len};

    ghost Value = { List ℕ };

    ghost view = { λ s. drop s.given s.bytes.items };

    ghost invariant = { λ s. s.given ≤ vec_len s.bytes };
}

impl PureSource {
    /// A source that has these bytes left.
    pub fn new(bytes: Vec<u8>) -> PureSource
        ensures made { result ≡ bytes.items }
    {
        PureSource { bytes, given: 0 }
    }
}

impl Source for PureSource {
    ghost use Rattle.std.specs.Prelude.{Some};

    ghost left = { λ s. Some s };

    ghost faults = { λ _. 0 };

    fn read(&mut self, buf: &mut [u8]) -> Got
        requires { 0 < length buf.old }
        ensures gives { Gives (Some self.old) (Some self.new) result buf.new }
        ensures never_fails { result ≢ Got.Failed }
        ensures obeys { GivesWhatFits self.old self.new result (length buf.old) }
    {
        let left = &self.bytes[self.given..];
        let count = buf.len().min(left.len());
        if count == 0 {
            return Got::End;
        }
        buf[..count].copy_from_slice(&left[..count]);
        self.given += count;
        Got::Bytes(count)
    }
}
