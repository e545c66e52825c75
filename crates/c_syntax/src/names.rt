//! The numbers of names.

ghost use Rattle.std.specs.Prelude.{◌≡◌, ◌<◌, ◌-◌, ◌^◌, ℕ, List, [], IfOk, OnOk, unwrap_or};
ghost use Rattle.std.specs.HashMap.{hash_map_len};
ghost use Rattle.c_syntax.specs.workings.Names.{AreNames};
ghost use Rattle.c_syntax.specs.language.Words.{number_of, with_name};

use std::alloc::{AllocError, Global};
use std::collections::HashMap;

/// The names that have appeared, with their numbers, from 1 in the order in which they first appeared.
#[derive(Drop)]
pub struct Names<'a> {
    numbers: HashMap<&'a [u8], u32>,
}

impl<'a> Names<'a> {
    /// No names.
    pub fn new(alloc: Global) -> Names<'a>
        ensures { AreNames [] result }
    {
        Names {
            numbers: HashMap::new(alloc),
        }
    }

    /// The number of a name, which has now appeared.
    pub fn add(&mut self, name: &'a [u8]) -> Result<u32, AllocError>
        requires { hash_map_len self.old.numbers < 2 ^ 32 - 1 }
        ensures names { OnOk result ((before : List (List ℕ)) → AreNames before self.old →
            AreNames (with_name before name.now) self.new) }
        ensures number { IfOk result (λ number. (before : List (List ℕ)) → AreNames before self.old →
            number ≡ unwrap_or (number_of (with_name before name.now) name.now) 0) }
    {
        if let Some(number) = self.numbers.get(name) {
            return Ok(*number);
        }
        let number = self.numbers.len() as u32 + 1;
        self.numbers.insert(name, number)?;
        Ok(number)
    }

    /// The number of a name, or 0 where it hasn't appeared.
    pub fn number_of(&self, name: &[u8]) -> u32
        ensures { (before : List (List ℕ)) → AreNames before self.now →
            result ≡ unwrap_or (number_of before name.now) 0 }
    {
        self.numbers.get(name).copied().unwrap_or(0)
    }
}
