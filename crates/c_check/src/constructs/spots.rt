//! Where constructs stand.

ghost use Rattle.std.specs.Prelude.{◌≡◌, ◌++◌, ◌∷◌, [], ℕ, if◌then◌else◌, OnErr, OnOk};
ghost use Rattle.std.specs.HashMap.{get};
ghost use Rattle.std.specs.Option.{option_or};
ghost use Rattle.c_check.specs.Pairs.{same_pair};
ghost use Rattle.c_check.specs.Spots.{number_of_place};

use c_tokens::Spot;
use std::alloc::{AllocError, Global};
use std::collections::HashMap;
use std::marker::Model;

/// The places of constructs, each with its number, from 0. Contracts see them in their order.
#[derive(Drop)]
pub struct Spots {
    all: Vec<Spot>,
    /// The first number of each line and column.
    numbers: HashMap<(u32, u32), usize>,
}

impl Model for Spots {
    ghost use Rattle.std.specs.Prelude.{◌≡◌, ℕ, List};
    ghost use Rattle.std.specs.HashMap.{get};
    ghost use Rattle.c_tokens.specs.declared.token.Spot.{Spot};

    ghost Value = { List Spot };

    ghost use Rattle.c_check.specs.Pairs.{same_pair};
    ghost use Rattle.c_check.specs.Spots.{number_of_place};

    ghost view = { λ spots. spots.all.items };

    ghost invariant = { λ spots. (place : ℕ × ℕ) →
        get same_pair spots.numbers place ≡ number_of_place 0 spots.all.items place };
}

impl Spots {
    /// None.
    pub fn new(alloc: Global) -> Spots
        ensures { result ≡ [] }
    {
        Spots {
            all: Vec::new(alloc),
            numbers: HashMap::new(alloc),
        }
    }

    /// The number of a place, if it has one. Where it has two, it is the first.
    pub fn number(&self, spot: Spot) -> Option<usize>
        ensures { result ≡ number_of_place 0 self.now (spot.line, spot.column) }
    {
        self.numbers.get(&(spot.line, spot.column)).copied()
    }

    /// One more.
    pub fn add(&mut self, spot: Spot) -> Result<(), AllocError>
        ensures added { OnOk result (self.new ≡ self.old ++ spot ∷ []) }
        ensures err { OnErr result (self.new ≡ self.old) }
    {
        let number = self.all.len();
        self.all.reserve(1)?;
        keep_first(&mut self.numbers, (spot.line, spot.column), number)?;
        self.all.push(spot)?;
        Ok(())
    }
}

/// A place has this number, if it had none before.
fn keep_first(
    numbers: &mut HashMap<(u32, u32), usize>,
    place: (u32, u32),
    number: usize,
) -> Result<(), AllocError>
    ensures kept { OnOk result ((other : ℕ × ℕ) →
        get same_pair numbers.new other ≡ option_or (get same_pair numbers.old other) (if same_pair place other
        then Some number else None)) }
    ensures err { OnErr result ((other : ℕ × ℕ) → get same_pair numbers.new other ≡ get same_pair numbers.old other) }
{
    if !numbers.contains_key(&place) {
        numbers.insert(place, number)?;
    }
    Ok(())
}
