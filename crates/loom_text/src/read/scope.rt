//! The names that a thread may use where its text is read.
ghost use Rattle.std.specs.Prelude.{◌≡◌, ◌≢◌, ◌<◌, length, AllPairs, IfOk, IfSome, None, string_bytes, Some, if◌then◌else◌};
ghost use Rattle.std.specs.Str.{is_utf8};
ghost use Rattle.loom_text.specs.Named.{LocationsDiffer, location_named, register_named};
ghost use Rattle.loom_text.specs.Tokens.{Gives};

mod parameters;
mod registers;

use crate::error::Problem;
use crate::read::stop::Stop;
use crate::read::token::Token;
use crate::test::Location;
use std::alloc::Global;
use std::str;

/// How many registers a thread may have. Own.
pub const MAX_REGISTERS: usize = 64;

/// The locations that a thread is passed, and its registers so far.
#[derive(Drop)]
pub(crate) struct Scope<'a> {
    alloc: Global,
    // The test's locations so far, and the numbers of those that the thread is passed.
    locations: &'a [Location],
    parameters: &'a [usize],
    registers: Vec<String>,
    // Those registers that are declared in the blocks that are open.
    pub(crate) open: Vec<usize>,
    ghost locations_differ: { LocationsDiffer locations.now },
    ghost registers_differ: { AllPairs (λ x y. string_bytes x ≢ string_bytes y) registers.items },
}

impl Scope<'_> {
    /// The names of the thread's registers, at its end.
    pub(crate) fn into_registers(self) -> Vec<String>
        ensures same { result.items ≡ self.entry.registers.items }
        ensures differ { AllPairs (λ x y. string_bytes x ≢ string_bytes y) result.items }
    {
        let Scope { registers, .. } = self;
        registers
    }
}

/// The token's spelling as a text of its own.
pub(crate) fn owned(alloc: Global, token: Token<'_>) -> Result<String, Stop>
    ensures name { IfOk result (λ name. string_bytes name ≡ token.entry.spelling.now) }
    ensures utf8 { Gives (λ name. string_bytes name) result (if is_utf8 token.entry.spelling.now then Some token.entry.spelling.now else None) }
{
    match str::from_utf8(token.spelling) {
        Ok(name) => Ok(String::from_str(alloc, name)?),
        Err(_) => Err(Stop::at(token, Problem::Character)),
    }
}

/// The number of the location of this name.
pub(crate) fn location_named(locations: &[Location], name: &[u8]) -> Option<usize>
    ensures within { IfSome result (λ number. number < length locations.now) }
    ensures named { result ≡ location_named locations.now name.now }
{
    locations
        .iter()
        .position(|location| location.name.as_bytes() == name)
}

/// The number of the register of this name.
pub(crate) fn register_named(registers: &[String], name: &[u8]) -> Option<usize>
    ensures within { IfSome result (λ number. number < length registers.now) }
    ensures named { result ≡ register_named registers.now name.now }
{
    registers
        .iter()
        .position(|register| register.as_bytes() == name)
}
