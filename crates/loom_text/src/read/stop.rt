//! Why reading stops.
ghost use Rattle.std.specs.Prelude.{◌≡◌};
ghost use Rattle.loom_text.specs.declared.read.stop.Stop.TheVariants.{Memory};

use crate::error::{Feature, Problem};
use crate::read::token::Token;
use std::alloc::{AllocError, AllocFailed};

/// Why reading stops: something is wrong, and where it begins and ends; or a growth was refused.
#[derive(Clone, Copy, Debug, PartialEq, Eq)]
pub enum Stop {
    /// The problem, how many bytes come before it, and how many before its end.
    At(Problem, usize, usize),
    /// A growth was refused.
    Memory,
}

impl Stop {
    /// The problem at the place of a token.
    pub fn at(token: Token<'_>, problem: Problem) -> Stop {
        Stop::At(problem, token.start, token.end)
    }

    /// What isn't supported, at the place of a token.
    pub fn unsupported(token: Token<'_>, feature: Feature) -> Stop {
        Stop::at(token, Problem::Unsupported(feature))
    }
}

impl From<AllocError> for Stop {
    ghost from_gives = { λ _ e. e ≡ Memory };

    fn from(_e: AllocError) -> Stop {
        Stop::Memory
    }
}

impl<T: Drop> From<AllocFailed<T>> for Stop {
    ghost from_gives = { λ _ e. e ≡ Memory };

    fn from(_e: AllocFailed<T>) -> Stop {
        Stop::Memory
    }
}
