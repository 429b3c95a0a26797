//! What a check found, and how it is printed.

use crate::model::Limit;
use loom_objects::choice::Choice;
use loom_objects::failure::Failure;
use std::fmt;

/// What a check found. `runs` counts the runs that ended without a failure.
#[derive(Debug, PartialEq, Eq, Drop)]
pub enum Report {
    /// Every run was made that was to be made, and none failed.
    Complete {
        runs: u64,
    },
    /// A limit was reached.
    Stopped {
        runs: u64,
        limit: Limit,
        /// The text of the path with which a check goes on.
        checkpoint: String,
    },
    /// A run failed, under these choices.
    Failed {
        runs: u64,
        failure: Failure,
        choices: Vec<Choice>,
    },
}

/// So many runs, as `1 run` and `2 runs`.
#[derive(Clone, Copy)]
pub(crate) struct RunCount(pub(crate) u64);

/// How to see what happened in a run that failed.
pub(crate) const TELLS: &str =
    "to see what happened: `Builder::explain`, or `runner::explain` for closures, with these choices";

/// So many choices of a long list are shown at each end.
const SHOWN: usize = 30;

/// Choices as a person reads them: the middle of a long list is left out.
#[derive(Clone, Copy)]
pub(crate) struct CutChoices<'a>(pub(crate) &'a [Choice]);

impl fmt::Display for CutChoices<'_> {
    fn fmt<W: fmt::Write>(&self, f: &mut fmt::Formatter<W>) -> fmt::Result {
        let last = self.0.len().saturating_sub(SHOWN);
        let left_out = last.saturating_sub(SHOWN);
        for (place, choice) in self.0.iter().enumerate() {
            if place == SHOWN && left_out > 0 {
                write!(f, " .. ({left_out} choices) ..")?;
            }
            if place < SHOWN || place >= last {
                let word = *choice;
                let space = if place == 0 { "" } else { " " };
                write!(f, "{space}{word}")?;
            }
        }
        Ok(())
    }
}

impl fmt::Display for RunCount {
    fn fmt<W: fmt::Write>(&self, f: &mut fmt::Formatter<W>) -> fmt::Result {
        let runs = self.0;
        if runs == 1 {
            write!(f, "1 run")
        } else {
            write!(f, "{runs} runs")
        }
    }
}

/// The setting that says the limit.
impl fmt::Display for Limit {
    fn fmt<W: fmt::Write>(&self, f: &mut fmt::Formatter<W>) -> fmt::Result {
        match self {
            Limit::Permutations => write!(f, "max_permutations"),
            Limit::Duration => write!(f, "max_duration"),
        }
    }
}

/// How the check ended, after how many runs. Of a failure also which run failed and why, and on a line of its own the choices that
/// `Choices::parse` reads, with which `replay` makes it again, and `explain` tells it. Of more than 60 choices the middle is left
/// out.
impl fmt::Display for Report {
    fn fmt<W: fmt::Write>(&self, f: &mut fmt::Formatter<W>) -> fmt::Result {
        match self {
            Report::Complete { runs } => {
                let runs = RunCount(*runs);
                write!(f, "complete: {runs}, none failed")
            }
            Report::Stopped { runs, limit, .. } => {
                let runs = RunCount(*runs);
                write!(f, "stopped: `{limit}` was reached after {runs}")
            }
            Report::Failed {
                runs,
                failure,
                choices,
            } => {
                let number = runs.saturating_add(1);
                let choices = CutChoices(choices.as_slice());
                write!(
                    f,
                    "failed in run {number}: {failure}\nreplay: {choices}\n{TELLS}"
                )
            }
        }
    }
}
