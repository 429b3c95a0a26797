//! The locations that the thread is passed.
ghost use Rattle.std.specs.Prelude.{◌≡◌, [], map};
ghost use Rattle.loom_text.specs.Known.{known, located, number_of, parameter_in, parameters_of};
ghost use Rattle.loom_text.specs.Named.{LocationsDiffer};

use crate::error::Problem;
use crate::read::scope::{Scope, location_named};
use crate::read::token::Token;
use crate::test::{Kind, Location};
use std::alloc::Global;

impl<'a> Scope<'a> {
    /// The names of a thread that is passed these of the test's locations, and has no registers so far.
    pub(crate) fn new(
        alloc: Global,
        locations: &'a [Location],
        parameters: &'a [usize],
    ) -> Scope<'a>
        requires { LocationsDiffer locations.now }
        ensures known { known result ≡ record { locations = parameters_of (map located locations.now) parameters.now; registers = [] } }
        ensures none { result.open.items ≡ [] }
    {
        Scope {
            alloc,
            locations,
            parameters,
            registers: Vec::new(alloc),
            open: Vec::new(alloc),
        }
    }

    /// The location of this name, with its kind, if the thread is passed it.
    #[tactic(auto, using(crate::proofs::KnownLemmas::is_parameter, crate::proofs::KnownLemmas::not_passed, crate::proofs::KnownLemmas::not_declared))]
    pub(crate) fn parameter_of(&self, token: Token<'_>) -> Option<(usize, Kind)>
        ensures { result ≡ parameter_in (known self.now).locations token.entry.spelling.now }
    {
        let number = location_named(self.locations, token.spelling)?;
        let location = self.locations.get(number)?;
        if self.parameters.contains(&number) {
            Some((number, location.kind))
        } else {
            None
        }
    }

    /// The plain int of this name, if the thread is passed it.
    pub(crate) fn plain_of(&self, token: Token<'_>) -> Option<usize>
        ensures { result ≡ number_of Kind.Plain (parameter_in (known self.now).locations token.entry.spelling.now) }
    {
        let (number, kind) = self.parameter_of(token)?;
        (kind == Kind::Plain).then_some(number)
    }

    /// Whether the test has a location of this name.
    pub(crate) fn is_declared(&self, token: Token<'_>) -> bool {
        location_named(self.locations, token.spelling).is_some()
    }

    /// What is wrong with a name that is no location which the thread is passed.
    pub(crate) fn unknown(&self, token: Token<'_>) -> Problem {
        if self.is_declared(token) {
            Problem::NotAParameter
        } else {
            Problem::Undeclared
        }
    }
}
