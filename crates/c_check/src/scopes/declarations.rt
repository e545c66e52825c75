//! The declarations of a program, and which of them are in scope.

ghost use Rattle.std.specs.Prelude.{◌≡◌, ℕ, length, slice_get, nat_eq, IfOk, OnOk, OnErr};
ghost use Rattle.std.specs.HashMap.{get};
ghost use Rattle.std.specs.Map.{update};
ghost use Rattle.c_check.specs.Declarations.{no_names, find, with_next, scope_begun, scope_ended};
ghost use Rattle.c_check.specs.Visible.{ends_first, without_first};

use crate::acts::act::Thing;
use crate::scopes::declared::Declared;
use std::alloc::{AllocError, Global};
use std::collections::HashMap;
use std::marker::Model;

/// A declaration that is in scope.
#[derive(Clone, Copy)]
struct Visible {
    /// The declaration.
    declared: Declared,
    /// The slot of the declaration of its name that it hides, if there is one.
    hidden: Option<u32>,
}

/// The declarations so far. Contracts see those in scope, the newest first, all of them, and how many scopes are open.
#[derive(Drop)]
pub struct Declarations {
    /// Those in scope, the newest last.
    visible: Vec<Visible>,
    /// All of them: each stands at its slot.
    all: Vec<Declared>,
    /// How many scopes are open.
    level: usize,
    /// The slot of the innermost declaration of each name that is in scope.
    innermost: HashMap<u32, u32>,
}

impl Model for Declarations {
    ghost use Rattle.std.specs.Prelude.{reverse, nat_eq};
    ghost use Rattle.std.specs.HashMap.{get};
    ghost use Rattle.c_check.specs.Declarations.{Declarations};

    ghost Value = { Declarations };

    ghost use Rattle.c_check.specs.Visible.{AreVisible, declared_in};

    ghost view = { λ names. record {
      visible = declared_in (reverse names.visible.items);
      all = names.all.items;
      level = names.level;
    } };

    ghost invariant = { λ names. AreVisible names.all.items (get nat_eq names.innermost)
        (reverse names.visible.items) };
}

impl Declarations {
    /// No declarations.
    pub fn new(alloc: Global) -> Declarations
        ensures { result ≡ no_names }
    {
        Declarations {
            visible: Vec::new(alloc),
            all: Vec::new(alloc),
            level: 0,
            innermost: HashMap::new(alloc),
        }
    }

    /// The innermost declaration of a name that is in scope.
    pub fn find(&self, name: u32) -> Option<Declared>
        ensures { result ≡ find self.now.visible name }
    {
        let slot = *self.innermost.get(&name)?;
        self.declaration(slot)
    }

    /// The declaration with a slot.
    pub fn declaration(&self, slot: u32) -> Option<Declared>
        ensures { result ≡ slice_get self.now.all slot }
    {
        self.all.get(slot as usize).copied()
    }

    /// How many declarations there are.
    pub fn count(&self) -> usize
        ensures { result ≡ length self.now.all }
    {
        self.all.len()
    }

    /// How many scopes are open.
    pub fn level(&self) -> usize
        ensures { result ≡ self.now.level }
    {
        self.level
    }

    /// A name is declared in the innermost scope. Its slot is answered.
    pub fn declare(&mut self, name: u32, thing: Thing) -> Result<u32, AllocError>
        ensures declared { OnOk result (self.new ≡ with_next self.old name thing) }
        ensures slot { IfOk result (λ slot. slot ≡ length self.old.all) }
        ensures err { OnErr result (self.new ≡ self.old) }
    {
        let Ok(slot) = u32::try_from(self.all.len()) else {
            return Err(AllocError);
        };
        let declared = Declared {
            name,
            thing,
            slot,
            level: self.level,
        };
        // What may fail comes before what changes anything.
        self.all.reserve(1)?;
        self.visible.reserve(1)?;
        let hidden = self.innermost.insert(name, slot)?;
        self.visible.push(Visible { declared, hidden })?;
        self.all.push(declared)?;
        Ok(slot)
    }

    /// A scope begins.
    pub fn open(&mut self) -> Result<(), AllocError>
        ensures scope_begun { OnOk result (self.new ≡ scope_begun self.old) }
        ensures err { OnErr result (self.new ≡ self.old) }
    {
        self.level = self.level.checked_add(1).ok_or(AllocError)?;
        Ok(())
    }

    /// The innermost scope ends.
    pub fn close(&mut self) -> Result<(), AllocError>
        ensures { OnOk result (self.new ≡ scope_ended self.old) }
    {
        while self.newest_ends() {
            self.uncover()?;
        }
        self.level = self.level.saturating_sub(1);
        Ok(())
    }

    /// Whether the newest declaration ends with the innermost scope.
    fn newest_ends(&self) -> bool
        ensures { result ≡ ends_first self.now.level self.now.visible }
    {
        match self.visible.last() {
            Some(last) => last.declared.level >= self.level,
            None => false,
        }
    }

    /// The newest declaration is in scope no more, and what it hid is seen again.
    fn uncover(&mut self) -> Result<(), AllocError>
        ensures { OnOk result (self.new ≡ without_first self.old) }
    {
        let Some(last) = self.visible.last().copied() else {
            return Ok(());
        };
        set_slot(&mut self.innermost, last.declared.name, last.hidden)?;
        self.visible.pop();
        Ok(())
    }
}

/// A name has this slot, or none.
fn set_slot(
    innermost: &mut HashMap<u32, u32>,
    name: u32,
    slot: Option<u32>,
) -> Result<(), AllocError>
    ensures set { OnOk result ((other : ℕ) →
        get nat_eq innermost.new other ≡ update nat_eq (get nat_eq innermost.old) name slot other) }
    ensures err { OnErr result ((other : ℕ) → get nat_eq innermost.new other ≡ get nat_eq innermost.old other) }
{
    match slot {
        Some(slot) => {
            innermost.insert(name, slot)?;
        }
        None => {
            innermost.remove(&name);
        }
    }
    Ok(())
}
