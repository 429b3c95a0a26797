//! What the program prints of a report.
ghost use Rattle.std.specs.Prelude.{◌≡◌, Some};
ghost use Rattle.loom.specs.Model.ChoicesText.{others_text};
ghost use Rattle.loom_examples.specs.Rows.Line.{report_text, status_of};

use loom::Choice;
use loom::model::Report;
use std::fmt;

/// Choices, each after a space: they end a line.
#[derive(Clone, Copy)]
pub struct SpacedChoices<'a>(pub &'a [Choice]);

/// A report: how the check ended, the number of runs, and where it failed the failure's number and the run's choices.
#[derive(Clone, Copy)]
pub struct ShownReport<'a>(pub &'a Report);

impl fmt::Display for SpacedChoices<'_> {
    ghost output = { λ shown. Some (others_text shown.0.now) };

    fn fmt<W: fmt::Write>(&self, f: &mut fmt::Formatter<W>) -> fmt::Result {
        for choice in self.0 {
            let choice = *choice;
            write!(f, " {choice}")?;
        }
        Ok(())
    }
}

impl fmt::Display for ShownReport<'_> {
    ghost output = { λ shown. Some (report_text shown.0.now) };

    fn fmt<W: fmt::Write>(&self, f: &mut fmt::Formatter<W>) -> fmt::Result {
        match self.0 {
            Report::Complete { runs } => write!(f, "complete {runs}"),
            Report::Stopped { runs, .. } => write!(f, "stopped {runs}"),
            Report::Failed {
                runs,
                failure,
                choices,
            } => {
                let kind = failure.kind.number();
                let choices = SpacedChoices(choices.as_slice());
                write!(f, "failed {kind} {runs}{choices}")
            }
        }
    }
}

/// The exit status: whether a run failed.
pub fn status_of(report: &Report) -> u8
    ensures { result ≡ status_of report.now }
{
    match report {
        Report::Complete { .. } | Report::Stopped { .. } => 0,
        Report::Failed { .. } => 1,
    }
}
