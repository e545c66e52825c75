//! The numbers of the names of criticals.

ghost use Rattle.std.specs.Prelude.{◌≡◌, [], ℕ, List, length, OnOk};
ghost use Rattle.c_check.specs.Criticals.{AreCriticals};
ghost use Rattle.c_check.specs.Once.{with_one};
ghost use Rattle.c_check.specs.Seen.{number_among};

use std::alloc::{AllocError, Global};
use std::collections::HashMap;

/// The numbers of the names of criticals, from 1 in the order in which the names first come.
#[derive(Drop)]
pub struct Criticals {
    numbers: HashMap<u32, u32>,
    count: u32,
}

impl Criticals {
    /// No names.
    pub fn new(alloc: Global) -> Criticals
        ensures { AreCriticals [] result }
    {
        Criticals {
            numbers: HashMap::new(alloc),
            count: 0,
        }
    }

    /// A critical has this name, or 0.
    pub fn add(&mut self, name: u32) -> Result<(), AllocError>
        ensures { OnOk result ((names : List ℕ) → AreCriticals names self.old →
            AreCriticals (with_one names name) self.new) }
    {
        if self.numbers.contains_key(&name) {
            return Ok(());
        }
        if self.count == u32::MAX {
            return Err(AllocError);
        }
        let number = self.count + 1;
        self.numbers.insert(name, number)?;
        self.count = number;
        Ok(())
    }

    /// How many names there are.
    pub fn count(&self) -> u32
        ensures { (names : List ℕ) → AreCriticals names self.now → result ≡ length names }
    {
        self.count
    }

    /// The number of a name, if it has come.
    pub fn number(&self, name: u32) -> Option<u32>
        ensures { (names : List ℕ) → AreCriticals names self.now → result ≡ number_among names name }
    {
        self.numbers.get(&name).copied()
    }
}
