//! Why a check gives no report.
ghost use Rattle.std.specs.Prelude.{◌≡◌};
ghost use Rattle.loom.specs.Model.Errors.{number_of};
ghost use Rattle.loom.specs.Model.Refusals.{of_path, of_store};
ghost use Rattle.loom.specs.declared.model.error.CheckError.TheVariants.{Memory};

use crate::checkpoint::store::StoreError;
use loom_engine::rt::path::checkpoint::error::PathError;
pub use loom_engine::rt::path::checkpoint::error::Setting;
use std::alloc::AllocError;
use std::fmt;
use thiserror::Error;

/// A variable of the environment that says a number.
#[derive(Clone, Copy, Debug, PartialEq, Eq)]
pub enum Variable {
    /// `LOOM_MAX_BRANCHES`
    MaxBranches,
    /// `LOOM_MAX_PERMUTATIONS`
    MaxPermutations,
    /// `LOOM_MAX_DURATION`
    MaxDuration,
    /// `LOOM_MAX_PREEMPTIONS`
    MaxPreemptions,
    /// `LOOM_CHECKPOINT_INTERVAL`
    CheckpointInterval,
}

impl fmt::Display for Variable {
    fn fmt<W: fmt::Write>(&self, f: &mut fmt::Formatter<W>) -> fmt::Result {
        match self {
            Variable::MaxBranches => write!(f, "LOOM_MAX_BRANCHES"),
            Variable::MaxPermutations => write!(f, "LOOM_MAX_PERMUTATIONS"),
            Variable::MaxDuration => write!(f, "LOOM_MAX_DURATION"),
            Variable::MaxPreemptions => write!(f, "LOOM_MAX_PREEMPTIONS"),
            Variable::CheckpointInterval => write!(f, "LOOM_CHECKPOINT_INTERVAL"),
        }
    }
}

/// Why a check gives no report.
#[derive(Clone, Copy, Debug, PartialEq, Eq, Error)]
pub enum CheckError {
    /// The setting is this.
    #[error("`max_threads` is {0}: set it to 1 to 5, which counts main")]
    MaxThreads(usize),
    /// The setting is this.
    #[error("`max_branches` is {0}: set it to 1 to 1000000")]
    MaxBranches(usize),
    /// The setting is this.
    #[error("`preemption_bound` is {0}: set it to 0 to 255, or set none")]
    PreemptionBound(usize),
    #[error("`checkpoint_interval` is 0: set it to 1 or more, as 20000")]
    CheckpointInterval,
    #[error("`max_steps` is 0: set it to 1 or more, as 1000000")]
    MaxSteps,
    #[error("`{0}` is set, and not to a number below 2^64 in decimal digits: correct it, or unset it")]
    NotANumber(Variable),
    #[error("the checkpoint is not JSON: it was cut off or changed, so delete it and begin anew")]
    NotJson,
    #[error("the checkpoint is JSON, but no path of a check: go on with a list of parts by several workers, name another file, or delete it and begin anew")]
    WrongShape,
    /// It has this version.
    #[error("the checkpoint has version {0}, and this loom reads 2: go on with the loom that wrote it, or delete it and begin anew")]
    WrongVersion(u64),
    /// This setting differs.
    #[error("the checkpoint was written with another `{0}`: go on with the same one, or delete it and begin anew")]
    OtherSettings(Setting),
    /// It has so many nodes.
    #[error("the checkpoint has {0} nodes, which is more than `max_branches`: set that to {0} or more, or delete the checkpoint and begin anew")]
    TooManyNodes(usize),
    #[error("the checkpoint has a node that no check writes: it was changed, so delete it and begin anew")]
    BadNode,
    #[error("the checkpoint could not be read or saved: see that its file may be read and written, and that the disk has room")]
    Store,
    #[error("out of memory: set a lower `max_branches` or `max_steps`, or make the body smaller")]
    Memory,
}

impl CheckError {
    /// The number by which the program names the error, from 1 to 14.
    pub fn number(self) -> u8
        ensures { result ≡ number_of self }
    {
        match self {
            CheckError::MaxThreads(_) => 1,
            CheckError::MaxBranches(_) => 2,
            CheckError::PreemptionBound(_) => 3,
            CheckError::CheckpointInterval => 4,
            CheckError::MaxSteps => 5,
            CheckError::NotANumber(_) => 6,
            CheckError::NotJson => 7,
            CheckError::WrongShape => 8,
            CheckError::WrongVersion(_) => 9,
            CheckError::OtherSettings(_) => 10,
            CheckError::TooManyNodes(_) => 11,
            CheckError::BadNode => 12,
            CheckError::Store => 13,
            CheckError::Memory => 14,
        }
    }
}

impl From<AllocError> for CheckError {
    ghost from_gives = { λ _ e. e ≡ Memory };

    fn from(_e: AllocError) -> CheckError {
        CheckError::Memory
    }
}

impl From<PathError> for CheckError {
    ghost from_gives = { λ why e. e ≡ of_path why };

    fn from(why: PathError) -> CheckError {
        match why {
            PathError::NotJson => CheckError::NotJson,
            PathError::WrongShape => CheckError::WrongShape,
            PathError::WrongVersion(version) => CheckError::WrongVersion(version),
            PathError::OtherSettings(setting) => CheckError::OtherSettings(setting),
            PathError::TooManyNodes(count) => CheckError::TooManyNodes(count),
            PathError::BadNode => CheckError::BadNode,
            PathError::Memory(_) => CheckError::Memory,
        }
    }
}

impl From<StoreError> for CheckError {
    ghost from_gives = { λ why e. e ≡ of_store why };

    fn from(why: StoreError) -> CheckError {
        match why {
            StoreError::Fault => CheckError::Store,
            StoreError::Memory => CheckError::Memory,
        }
    }
}
