//! The variables of an environment, from which a builder is made.
ghost use Rattle.std.specs.Prelude.{◌≡◌};
ghost use Rattle.loom.specs.Model.Environment.{duration_in, number_in, number_or as or_number, option_in};

use crate::model::error::{CheckError, Variable};
use std::env::{self, VarError};
use std::rt::Env as HostEnv;
use std::time::Duration;
use thiserror::Error;

/// The variables of an environment that say how a check is done (loom reads them by itself).
#[derive(Debug, Drop)]
pub struct Env {
    /// `LOOM_MAX_BRANCHES`, a number.
    pub max_branches: Option<String>,
    /// `LOOM_MAX_PERMUTATIONS`, a number.
    pub max_permutations: Option<String>,
    /// `LOOM_MAX_DURATION`, a number of seconds.
    pub max_duration: Option<String>,
    /// `LOOM_MAX_PREEMPTIONS`, a number.
    pub max_preemptions: Option<String>,
    /// `LOOM_CHECKPOINT_FILE`, a file's name.
    pub checkpoint_file: Option<String>,
    /// `LOOM_CHECKPOINT_INTERVAL`, a number.
    pub checkpoint_interval: Option<String>,
    /// `LOOM_LOCATION`, which counts by being there.
    pub location: Option<String>,
    /// `LOOM_LOG`, which counts by being there.
    pub log: Option<String>,
}

/// Why the environment of the process makes no builder (own).
#[derive(Debug, Drop, Error)]
pub enum EnvError {
    /// A variable isn't UTF-8, or memory for one was refused.
    #[error("{0}")]
    NotRead(VarError),
    /// A variable that should be a number isn't.
    #[error("{0}")]
    NotANumber(CheckError),
}

impl From<VarError> for EnvError {
    fn from(error: VarError) -> EnvError {
        EnvError::NotRead(error)
    }
}

impl From<CheckError> for EnvError {
    fn from(error: CheckError) -> EnvError {
        EnvError::NotANumber(error)
    }
}

impl Env {
    /// The variables that the process has (loom reads them by itself). `NotUnicode` where one isn't UTF-8, and `OutOfMemory` where
    /// memory for one is refused.
    pub fn of_process<R: AllocGlobal + HostEnv>(rt: &R) -> Result<Env, VarError> {
        Ok(Env {
            max_branches: variable(rt, "LOOM_MAX_BRANCHES")?,
            max_permutations: variable(rt, "LOOM_MAX_PERMUTATIONS")?,
            max_duration: variable(rt, "LOOM_MAX_DURATION")?,
            max_preemptions: variable(rt, "LOOM_MAX_PREEMPTIONS")?,
            checkpoint_file: variable(rt, "LOOM_CHECKPOINT_FILE")?,
            checkpoint_interval: variable(rt, "LOOM_CHECKPOINT_INTERVAL")?,
            location: variable(rt, "LOOM_LOCATION")?,
            log: variable(rt, "LOOM_LOG")?,
        })
    }
}

/// The variable's text, if there is one.
fn variable<R: AllocGlobal + HostEnv>(rt: &R, name: &str) -> Result<Option<String>, VarError> {
    match env::var(rt, name) {
        Ok(text) => Ok(Some(text)),
        Err(VarError::NotPresent) => Ok(None),
        Err(error) => Err(error),
    }
}

/// The number that the variable's text says, in decimal digits, of 64 bits.
fn number(variable: Variable, text: &str) -> Result<usize, CheckError>
    ensures { result ≡ number_in variable text.now }
{
    match text.parse::<usize>() {
        Ok(number) => Ok(number),
        Err(_) => Err(CheckError::NotANumber(variable)),
    }
}

/// The number that the text says, or this one without a text.
pub(crate) fn number_or(
    variable: Variable,
    text: &Option<String>,
    without: usize,
) -> Result<usize, CheckError>
    ensures { result ≡ or_number variable text.now without }
{
    match text {
        Some(text) => number(variable, text.as_str()),
        None => Ok(without),
    }
}

/// The number that the text says, if there is one.
pub(crate) fn optional(
    variable: Variable,
    text: &Option<String>,
) -> Result<Option<usize>, CheckError>
    ensures { result ≡ option_in variable text.now }
{
    match text {
        Some(text) => Ok(Some(number(variable, text.as_str())?)),
        None => Ok(None),
    }
}

/// As many seconds as the text says, if there is one.
pub(crate) fn seconds(text: &Option<String>) -> Result<Option<Duration>, CheckError>
    ensures { result ≡ duration_in text.now }
{
    let number = optional(Variable::MaxDuration, text)?;
    Ok(number.map(|number| Duration::from_secs(number as u64)))
}
