//! What came of a row, how it is printed, and which run of it failed.
use crate::rows::cover::print_covered;
use crate::rows::json::{of_covered, of_replay, of_report, print_answer};
use crate::rows::print_report;
use crate::rows::tasks::{print_replay, print_risen};
use loom::Choice;
use loom::model::cover::Covered;
use loom::model::rising::Risen;
use loom::model::{Replay, Report};
use std::alloc::Global;
use std::io::{self, Write};

/// What came of a row.
#[derive(Drop)]
pub(crate) enum Found {
    /// What a check found.
    Report(Report),
    /// What checks with rising bounds found.
    Risen(Risen),
    /// How a run by given choices ended.
    Replay(Replay<u64>),
    /// What a check found that remembers states.
    Covered(Covered),
}

impl Found {
    /// The choices of the run that failed, if one did.
    pub(crate) fn failing(&self) -> Option<&[Choice]> {
        match self {
            Found::Report(report) => failing_choices(report),
            Found::Risen(risen) => failing_choices(&risen.report),
            Found::Replay(Replay::Failed { choices, .. }) => Some(choices.as_slice()),
            Found::Replay(Replay::Ended { .. }) => None,
            Found::Covered(Covered::Failed { choices, .. }) => Some(choices.as_slice()),
            Found::Covered(
                Covered::Complete { .. } | Covered::Livelock { .. } | Covered::Stopped { .. },
            ) => None,
        }
    }

    /// Prints its line, and answers the exit status.
    pub(crate) fn print<O: Write>(&self, out: &mut O) -> io::Result<u8> {
        match self {
            Found::Report(report) => print_report(out, report),
            Found::Risen(risen) => print_risen(out, risen),
            Found::Replay(replay) => print_replay(out, replay),
            Found::Covered(covered) => print_covered(out, covered),
        }
    }

    /// Prints its JSON object, and answers the exit status.
    pub(crate) fn print_object<O: Write>(
        &self,
        alloc: Global,
        name: &str,
        out: &mut O,
    ) -> io::Result<u8> {
        let answer = match self {
            Found::Report(report) => of_report(alloc, name, None, report)?,
            Found::Risen(risen) => of_report(alloc, name, Some(risen.bound), &risen.report)?,
            Found::Replay(replay) => of_replay(alloc, name, replay)?,
            Found::Covered(covered) => of_covered(alloc, name, covered)?,
        };
        print_answer(alloc, &answer, out)
    }
}

/// The choices of the run that failed, if one did.
pub(crate) fn failing_choices(report: &Report) -> Option<&[Choice]> {
    match report {
        Report::Failed { choices, .. } => Some(choices.as_slice()),
        Report::Complete { .. } | Report::Stopped { .. } => None,
    }
}
