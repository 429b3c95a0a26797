//! Answers in a line each.
use crate::run::answer::{Answer, End, Question, flag_of};
use crate::run::summary::Summary;
use std::fmt;

/// The head of a table of answers.
pub(crate) const TABLE_HEAD: &str =
    "| Test | Asked | States | Observation | Answer |\n|---|---|---|---|---|";

/// An answer as a line: `SB Allowed: Ok, Sometimes 2 18, 4 states` (own).
#[derive(Clone, Copy)]
pub struct Line<'a>(pub Answer<'a>);

/// An answer as a line of a table (own).
#[derive(Clone, Copy)]
pub struct TableLine<'a>(pub Answer<'a>);

impl fmt::Display for Line<'_> {
    fn fmt<W: fmt::Write>(&self, f: &mut fmt::Formatter<W>) -> fmt::Result {
        let answer = self.0;
        let name = answer.test.name.as_str();
        let question = Question(answer.test.quantifier);
        let Summary {
            positive,
            negative,
            observation,
            verdict,
        } = answer.summary();
        let states = answer.counts().states.len();
        let end = ShownEnd(answer.end());
        let plural = if states == 1 { "" } else { "s" };
        write!(
            f,
            "{name} {question}: {verdict}, {observation} {positive} {negative}, {states} state{plural}{end}"
        )
    }
}

impl fmt::Display for TableLine<'_> {
    fn fmt<W: fmt::Write>(&self, f: &mut fmt::Formatter<W>) -> fmt::Result {
        let answer = self.0;
        let name = answer.test.name.as_str();
        let question = Question(answer.test.quantifier);
        let Summary {
            positive,
            negative,
            observation,
            verdict,
        } = answer.summary();
        let states = answer.counts().states.len();
        let end = ShownEnd(answer.end());
        write!(
            f,
            "| {name} | {question} | {states} | {observation} {positive} {negative} | {verdict}{end} |"
        )
    }
}

// Why the states may not be all, if they may.
#[derive(Clone, Copy)]
struct ShownEnd<'a>(End<'a>);

impl fmt::Display for ShownEnd<'_> {
    fn fmt<W: fmt::Write>(&self, f: &mut fmt::Formatter<W>) -> fmt::Result {
        match self.0 {
            End::Complete { .. } => Ok(()),
            End::Livelock { .. } => f.write_str(", livelock"),
            End::Stopped { .. } => f.write_str(", stopped"),
            End::Failed { failure, .. } => {
                let flag = flag_of(failure.kind);
                write!(f, ", {flag}")
            }
        }
    }
}
