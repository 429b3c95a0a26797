//! Why a run failed, and where.
ghost use Rattle.std.specs.Prelude.{◌≡◌};
ghost use Rattle.loom_objects.specs.Failure.{failure_of};

use crate::location::Location;
use loom_views::rt::failure::FailureKind;
use std::fmt;

/// Why a run failed, and where, if its operation named a place.
#[derive(Clone, Copy, Debug, PartialEq, Eq)]
pub struct Failure {
    /// Why it failed.
    pub kind: FailureKind,
    /// Where, if its operation named a place.
    pub location: Option<Location>,
}

/// Its place first, as `src/spin.rs:87`, if it has one; then why.
impl fmt::Display for Failure {
    fn fmt<W: fmt::Write>(&self, f: &mut fmt::Formatter<W>) -> fmt::Result {
        match &self.location {
            None => write!(f, "{}", self.kind),
            Some(place) => write!(f, "{}:{}: {}", place.file, place.line, self.kind),
        }
    }
}

impl Failure {
    /// The failure, with the place where it came (own).
    pub fn at(self, location: Option<Location>) -> Failure
        ensures { result ≡ record self { location = location } }
    {
        Failure { location, ..self }
    }
}

/// Why a run goes no further.
#[derive(Clone, Copy, Debug)]
pub enum Stop {
    Failure(Failure),
    /// A growth was refused.
    Memory,
}

/// The run fails by this kind.
pub fn failed(kind: FailureKind) -> Stop
    ensures { result ≡ failure_of kind }
{
    Stop::Failure(Failure {
        kind,
        location: None,
    })
}
