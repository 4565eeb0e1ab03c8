//! What is wrong with a plan, and where.

ghost use Rattle.std.specs.Prelude.{◌≡◌, []};
ghost use Rattle.plan_text.specs.inner.Fault.{fault_code, fault_text};
ghost use Rattle.plan_text.specs.declared.fault.Stop.TheVariants.{NoMemory as no_memory};

use crate::literal::Literal;
use std::alloc::{AllocError, AllocFailed, Global};
use std::error::Error;
use std::fmt;

/// The faults of a plan.
#[derive(Clone, Copy, Debug, PartialEq, Eq)]
pub enum PlanFaultKind {
    /// The text isn't a TOML document.
    NotToml,
    /// A key that a plan doesn't have at this path.
    UnknownKey,
    /// A required key, or the one key of a condition or a step, isn't there.
    Missing,
    /// A value of another kind, or outside its range or its form.
    BadRange,
    /// A text that should be the path to a piece of a message and isn't.
    BadPath,
    /// A step that writes MSH-1, MSH-2 or MSH-10, or removes MSH.
    ForbiddenWrite,
    /// A route to a name that no destination has.
    UnknownName,
    /// A name, a destination of a channel or a lookup text that occurs twice.
    DoubleName,
    /// A list that is too long, or conditions too deep.
    TooMany,
    /// Memory was refused.
    NoMemory,
}

impl PlanFaultKind {
    /// The number of the fault, 1 to 10.
    pub fn code(self) -> u32
        ensures { result ≡ fault_code self }
    {
        match self {
            PlanFaultKind::NotToml => 1,
            PlanFaultKind::UnknownKey => 2,
            PlanFaultKind::Missing => 3,
            PlanFaultKind::BadRange => 4,
            PlanFaultKind::BadPath => 5,
            PlanFaultKind::ForbiddenWrite => 6,
            PlanFaultKind::UnknownName => 7,
            PlanFaultKind::DoubleName => 8,
            PlanFaultKind::TooMany => 9,
            PlanFaultKind::NoMemory => 10,
        }
    }

    /// The name of the fault, as it is shown.
    pub fn text(self) -> &'static str
        ensures { result.now ≡ fault_text self }
    {
        match self {
            PlanFaultKind::NotToml => "NotToml",
            PlanFaultKind::UnknownKey => "UnknownKey",
            PlanFaultKind::Missing => "Missing",
            PlanFaultKind::BadRange => "BadRange",
            PlanFaultKind::BadPath => "BadPath",
            PlanFaultKind::ForbiddenWrite => "ForbiddenWrite",
            PlanFaultKind::UnknownName => "UnknownName",
            PlanFaultKind::DoubleName => "DoubleName",
            PlanFaultKind::TooMany => "TooMany",
            PlanFaultKind::NoMemory => "NoMemory",
        }
    }
}

/// The first fault of a plan, and the keys that lead to it, as `channel[0].route[1].to`.
///
/// The path of NotToml and of NoMemory is empty.
#[derive(Debug, Drop)]
pub struct PlanFault {
    pub name: PlanFaultKind,
    pub path: Literal,
}

impl fmt::Display for PlanFault {
    fn fmt<W: fmt::Write>(&self, f: &mut fmt::Formatter<W>) -> fmt::Result {
        f.write_str(self.name.text())?;
        if !self.path.as_str().is_empty() {
            f.write_str(" at ")?;
            f.write_str(self.path.as_str())?;
        }
        Ok(())
    }
}

impl Error for PlanFault {}

impl PlanFault {
    /// A fault of the whole text, which has no path.
    pub(crate) fn of_text(alloc: Global, name: PlanFaultKind) -> PlanFault
        ensures { result ≡ record { name = name; path = [] } }
    {
        PlanFault {
            name,
            path: Literal::empty(alloc),
        }
    }
}

/// Why reading stopped.
#[derive(Drop)]
pub(crate) enum Stop {
    NoMemory,
    Fault(PlanFault),
}

impl From<AllocError> for Stop {
    ghost from_gives = { λ _ e. e ≡ no_memory };

    fn from(_e: AllocError) -> Stop {
        Stop::NoMemory
    }
}

impl<T: Drop> From<AllocFailed<T>> for Stop {
    ghost from_gives = { λ _ e. e ≡ no_memory };

    fn from(_e: AllocFailed<T>) -> Stop {
        Stop::NoMemory
    }
}
