//! Why a program is refused. `number` and `spot` are tables, a row a fault.

ghost use Rattle.std.specs.Prelude.{◌≡◌};
ghost use Rattle.c_check.specs.Faults.{fault_number, fault_spot};

use c_tokens::{NOWHERE, Spot};
use thiserror::Error;

/// The rule that a program breaks, and the place: that of the name, the call, the directive or the statement that breaks it.
#[derive(Clone, Copy, Debug, PartialEq, Eq, Error)]
pub enum CheckFault {
    /// Number 8: no declaration of the name is in scope.
    #[error("unknown name")]
    UnknownName(Spot),
    /// Number 9: the name is declared a second time in its scope.
    #[error("declared twice")]
    TwiceDeclared(Spot),
    /// Number 10: the name, call, return, text or clause isn't used as what it is.
    #[error("wrong use")]
    WrongUse(Spot),
    /// Number 11: the directive or return may not stand inside the construct around it.
    #[error("bad nesting")]
    BadNesting(Spot),
    /// Number 12: the statement of a `for` directive isn't a loop that can be shared out.
    #[error("bad loop")]
    BadLoop(Spot),
    /// Number 13: there is no function main. The place is the end of the text.
    #[error("no main")]
    NoMain(Spot),
    /// Number 14: under `default(none)` a variable is used that no clause lists.
    #[error("not listed")]
    NotListed(Spot),
    /// No memory was left.
    #[error("memory")]
    Memory,
}

impl CheckFault {
    /// The number that tells the fault: 8 to 14, in the order above, and 0 for want of memory.
    pub fn number(&self) -> u32
        ensures { result ≡ fault_number self.now }
    {
        match self {
            CheckFault::UnknownName(_) => 8,
            CheckFault::TwiceDeclared(_) => 9,
            CheckFault::WrongUse(_) => 10,
            CheckFault::BadNesting(_) => 11,
            CheckFault::BadLoop(_) => 12,
            CheckFault::NoMain(_) => 13,
            CheckFault::NotListed(_) => 14,
            CheckFault::Memory => 0,
        }
    }

    /// The place of the fault: 0:0 for want of memory.
    pub fn spot(&self) -> Spot
        ensures { result ≡ fault_spot self.now }
    {
        match self {
            CheckFault::UnknownName(spot)
            | CheckFault::TwiceDeclared(spot)
            | CheckFault::WrongUse(spot)
            | CheckFault::BadNesting(spot)
            | CheckFault::BadLoop(spot)
            | CheckFault::NoMain(spot)
            | CheckFault::NotListed(spot) => *spot,
            CheckFault::Memory => NOWHERE,
        }
    }
}
