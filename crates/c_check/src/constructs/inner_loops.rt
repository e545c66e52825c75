//! The loops inside constructs that directives share out.

ghost use Rattle.std.specs.Prelude.{◌≡◌, ◌++◌, ◌∷◌, [], OnOk};
ghost use Rattle.c_check.specs.Rules.{is_loop_inside};

use crate::constructs::parts::LoopInside;
use c_tokens::Spot;
use std::alloc::{AllocError, Global};
use std::collections::HashSet;
use std::marker::Model;

/// The loops inside constructs that directives share out. Contracts see them in their order.
#[derive(Drop)]
pub struct InnerLoops {
    all: Vec<LoopInside>,
    /// The slot of the variable of each, with the place of the construct.
    places: HashSet<(u32, u32, u32)>,
}

impl Model for InnerLoops {
    ghost use Rattle.std.specs.Prelude.{◌≡◌, ℕ, List};
    ghost use Rattle.std.specs.HashSet.{contains};
    ghost use Rattle.c_check.specs.declared.constructs.parts.LoopInside.{LoopInside};
    ghost use Rattle.c_tokens.specs.declared.token.Spot.{Spot};

    ghost Value = { List LoopInside };

    ghost use Rattle.c_check.specs.Rules.{is_loop_inside};
    ghost use Rattle.c_check.specs.Pairs.{same_triple};

    ghost view = { λ loops. loops.all.items };

    ghost invariant = { λ loops. (slot : ℕ) (construct : Spot) →
        contains same_triple loops.places (slot, construct.line, construct.column) ≡
        is_loop_inside loops.all.items slot construct };
}

impl InnerLoops {
    /// None.
    pub fn new(alloc: Global) -> InnerLoops
        ensures { result ≡ [] }
    {
        InnerLoops {
            all: Vec::new(alloc),
            places: HashSet::new(alloc),
        }
    }

    /// Whether a variable is that of a loop inside a construct.
    pub fn has(&self, slot: u32, construct: Spot) -> bool
        ensures { result ≡ is_loop_inside self.now slot construct }
    {
        self.places
            .contains(&(slot, construct.line, construct.column))
    }

    /// One more.
    pub fn add(&mut self, inner: LoopInside) -> Result<(), AllocError>
        ensures { OnOk result (self.new ≡ self.old ++ inner ∷ []) }
    {
        self.all.reserve(1)?;
        let construct = inner.construct;
        self.places
            .insert((inner.slot, construct.line, construct.column))?;
        self.all.push(inner)?;
        Ok(())
    }
}
