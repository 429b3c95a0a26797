//! Why a check of closures gives no report.
ghost use Rattle.std.specs.Prelude.{◌≡◌};
ghost use Rattle.loom.specs.Model.Refusals.{of_store};
ghost use Rattle.loom.specs.Runner.Errors.{error_by, number_of, of_check};
ghost use Rattle.loom.specs.declared.runner.error.RunnerError.TheVariants.{Memory};

use crate::checkpoint::store::StoreError;
use crate::model::error::CheckError;
use crate::runner::stop::Stop;
use loom_objects::operation::Request;
use std::alloc::AllocError;
use std::fmt;
use thiserror::Error;

/// A thread has handed over another operation than in the run before, where both runs had made the same choices; or, where closures are
/// recorded, than in any run before, after the same replies (own).
#[derive(Debug, PartialEq, Eq, Drop)]
pub struct Changed {
    /// Which run, from 1.
    pub run: u64,
    /// Which thread; 0 is main.
    pub thread: u8,
    /// What was handed over in that run. Data are `()`.
    pub before: Request<(), ()>,
    /// What was handed over in this one. Data are `()`.
    pub now: Request<(), ()>,
    /// All this in words, as `Display` prints it: the operations as an explanation writes them, and what to do.
    pub text: String,
}

impl fmt::Display for Changed {
    fn fmt<W: fmt::Write>(&self, f: &mut fmt::Formatter<W>) -> fmt::Result {
        write!(f, "{}", self.text)
    }
}

/// Why a check of closures gives no report (own).
#[derive(Debug, PartialEq, Eq, Drop, Error)]
pub enum RunnerError {
    #[error("the host refused to start a thread: make fewer at a time, or raise its limit")]
    Refused,
    #[error("what the closures were told is not the history of the run: this is a fault of the runner, so please report it")]
    NotSettled,
    #[error("out of memory: set a lower `max_branches` or `max_steps`, or make the closure smaller")]
    Memory,
    /// A setting or the store's text was refused, or the store met a fault.
    #[error("{0}")]
    Settings(CheckError),
    #[error("{0}")]
    Changed(Changed),
}

impl RunnerError {
    /// The number by which the program names the error, from 1 to 5 (own).
    pub fn number(&self) -> u8
        ensures { result ≡ number_of self.now }
    {
        match self {
            RunnerError::Refused => 1,
            RunnerError::NotSettled => 2,
            RunnerError::Memory => 3,
            RunnerError::Settings(_) => 4,
            RunnerError::Changed(_) => 5,
        }
    }
}

/// The error of a run that stopped so, where its history didn't (own).
pub fn error_by(stop: Stop) -> RunnerError
    ensures { result ≡ error_by stop }
{
    match stop {
        Stop::Failure(_) => RunnerError::NotSettled,
        Stop::Memory => RunnerError::Memory,
        Stop::Refused => RunnerError::Refused,
    }
}

/// Want of memory is an error of its own.
impl From<CheckError> for RunnerError {
    ghost from_gives = { λ why e. e ≡ of_check why };

    fn from(why: CheckError) -> RunnerError {
        match why {
            CheckError::Memory => RunnerError::Memory,
            _ => RunnerError::Settings(why),
        }
    }
}

impl From<AllocError> for RunnerError {
    ghost from_gives = { λ _ e. e ≡ Memory };

    fn from(_e: AllocError) -> RunnerError {
        RunnerError::Memory
    }
}

impl From<StoreError> for RunnerError {
    ghost from_gives = { λ why e. e ≡ of_check (of_store why) };

    fn from(why: StoreError) -> RunnerError {
        match why {
            StoreError::Fault => RunnerError::Settings(CheckError::Store),
            StoreError::Memory => RunnerError::Memory,
        }
    }
}
