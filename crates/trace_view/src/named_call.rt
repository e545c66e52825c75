//! A call whose arguments are written by their names.

ghost use Rattle.std.specs.Prelude.{◌≡◌, Some};
ghost use Rattle.trace_view.specs.NamedLines.{named_call};
ghost use Rattle.trace_view.specs.Naming.{named_argument, naming_of};

use crate::number_names::{Enumeration, NumberName};
use ompt_calls::{Argument, Call, CodePlace};
use std::fmt;
use std::fmt::{Display, Formatter};
use trace_format::{Kind, kinds_of};

/// A call whose arguments are written by their names.
#[derive(Clone, Copy)]
pub(crate) struct NamedCall {
    pub call: Call,
}

impl Display for NamedCall {
    ghost output = { λ named. Some (named_call named.call) };

    fn fmt<W: fmt::Write>(&self, f: &mut Formatter<W>) -> fmt::Result {
        write!(f, "{}", self.call.name())?;
        let kinds = kinds_of(self.call.number()).iter();
        for (kind, argument) in kinds.zip(self.call.arguments().as_slice()) {
            let (naming, argument) = (naming_of(*kind), *argument);
            write!(f, " {}", NamedArgument { naming, argument })?;
        }
        Ok(())
    }
}

/// How an argument is written.
#[derive(Clone, Copy)]
enum Naming {
    /// As in the line of a call.
    Plain,
    /// As a place.
    Place,
    /// By its name as a value of this.
    Named(Enumeration),
}

/// How an argument of the kind is written.
fn naming_of(kind: Kind) -> Naming
    ensures { result ≡ naming_of kind }
{
    match kind {
        Kind::Place => Naming::Place,
        Kind::OfThread => Naming::Named(Enumeration::ThreadKind),
        Kind::Endpoint => Naming::Named(Enumeration::Endpoint),
        Kind::OfSync => Naming::Named(Enumeration::SyncKind),
        Kind::OfMutex | Kind::OfRelease | Kind::OfLock => Naming::Named(Enumeration::MutexKind),
        Kind::OfWork => Naming::Named(Enumeration::WorkKind),
        Kind::OfDispatch => Naming::Named(Enumeration::DispatchKind),
        Kind::Status => Naming::Named(Enumeration::TaskStatus),
        Kind::ParallelFlags => Naming::Named(Enumeration::RegionFlags),
        Kind::TaskFlags | Kind::ImplicitFlags => Naming::Named(Enumeration::TaskFlags),
        Kind::Short | Kind::Long | Kind::Word | Kind::Frame | Kind::Iterations | Kind::Zero =>
            Naming::Plain,
    }
}

/// An argument that is written so.
#[derive(Clone, Copy)]
struct NamedArgument {
    naming: Naming,
    argument: Argument,
}

impl Display for NamedArgument {
    ghost output = { λ named. Some (named_argument named.naming named.argument) };

    fn fmt<W: fmt::Write>(&self, f: &mut Formatter<W>) -> fmt::Result {
        match (self.naming, self.argument) {
            (Naming::Place, Argument::Long(place)) => write!(f, "{}", CodePlace(place)),
            (Naming::Named(of), Argument::Short(number)) => write!(
                f,
                "{}",
                NumberName { of, number }
            ),
            (_, argument) => write!(f, "{argument}"),
        }
    }
}
