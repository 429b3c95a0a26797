//! What the final states of a test say of its condition.
ghost use Rattle.std.specs.Prelude.{◌≡◌};
ghost use Rattle.loom_text.specs.Run.Summary.{covered_to, observed, reached_by, summary_covered, summary_of, summary_seen, verdict_of, walked_to};

use crate::run::check::Outcome;
use crate::run::cover::Covering;
use crate::run::walk::Seen;
use crate::test::{Quantifier, Test};
use loom::model::cover::Covered;
use loom::model::{Report, Walked};
use std::fmt;

/// How often the condition was met (herd7's words).
#[derive(Clone, Copy)]
pub enum Observation {
    /// In each run, and in one at least.
    Always,
    /// In some runs, and in others not.
    Sometimes,
    /// In no run.
    Never,
}

/// Whether the test holds (herd7's words).
#[derive(Clone, Copy)]
pub enum Verdict {
    /// What is asked for holds: for `exists` some state meets the condition, for `~exists` none, for `forall` each.
    Ok,
    /// It doesn't hold, or a run failed or never ends.
    No,
    /// The check was stopped before that was known, or a walk didn't come to it (own).
    Undecided,
}

/// What the final states say of the condition (own).
#[derive(Clone, Copy)]
pub struct Summary {
    /// How many runs ended with a state that meets the condition.
    pub positive: u64,
    /// How many ended with another one.
    pub negative: u64,
    /// Whether the condition is met always, sometimes or never.
    pub observation: Observation,
    /// Whether the test holds.
    pub verdict: Verdict,
}

// How far a check came.
#[derive(Clone, Copy)]
enum Reached {
    // All runs were made that were to be made.
    All,
    // There are more.
    Part,
    // A run failed, or some never end.
    Failure,
}

impl fmt::Display for Observation {
    fn fmt<W: fmt::Write>(&self, f: &mut fmt::Formatter<W>) -> fmt::Result {
        f.write_str(match self {
            Observation::Always => "Always",
            Observation::Sometimes => "Sometimes",
            Observation::Never => "Never",
        })
    }
}

impl fmt::Display for Verdict {
    fn fmt<W: fmt::Write>(&self, f: &mut fmt::Formatter<W>) -> fmt::Result {
        f.write_str(match self {
            Verdict::Ok => "Ok",
            Verdict::No => "No",
            Verdict::Undecided => "Undecided",
        })
    }
}

impl Summary {
    /// What was found of the test (own).
    pub fn of(test: &Test, outcome: &Outcome) -> Summary
        ensures { result ≡ summary_of test.now.quantifier outcome.now }
    {
        let positive = outcome.counts.positive;
        let negative = outcome.counts.negative;
        Summary {
            positive,
            negative,
            observation: observed(positive, negative),
            verdict: verdict_of(
                test.quantifier,
                reached_by(&outcome.report),
                positive,
                negative,
            ),
        }
    }

    /// What a check that remembers states found of the test (own).
    pub fn covered(test: &Test, found: &Covering) -> Summary
        ensures { result ≡ summary_covered test.now.quantifier found.now }
    {
        let positive = found.counts.positive;
        let negative = found.counts.negative;
        Summary {
            positive,
            negative,
            observation: observed(positive, negative),
            verdict: verdict_of(
                test.quantifier,
                covered_to(&found.covered),
                positive,
                negative,
            ),
        }
    }

    /// What was seen of the test in a walk (own).
    pub fn seen(test: &Test, seen: &Seen) -> Summary
        ensures { result ≡ summary_seen test.now.quantifier seen.now }
    {
        let positive = seen.counts.positive;
        let negative = seen.counts.negative;
        Summary {
            positive,
            negative,
            observation: observed(positive, negative),
            verdict: verdict_of(test.quantifier, walked_to(&seen.walked), positive, negative),
        }
    }
}

fn reached_by(report: &Report) -> Reached
    ensures { result ≡ reached_by report.now }
{
    match report {
        Report::Complete { .. } => Reached::All,
        Report::Stopped { .. } => Reached::Part,
        Report::Failed { .. } => Reached::Failure,
    }
}

fn covered_to(covered: &Covered) -> Reached
    ensures { result ≡ covered_to covered.now }
{
    match covered {
        Covered::Complete { .. } => Reached::All,
        Covered::Stopped { .. } => Reached::Part,
        Covered::Failed { .. } | Covered::Livelock { .. } => Reached::Failure,
    }
}

fn walked_to(walked: &Walked) -> Reached
    ensures { result ≡ walked_to walked.now }
{
    match walked {
        Walked::Made { .. } => Reached::Part,
        Walked::Failed { .. } => Reached::Failure,
    }
}

fn observed(positive: u64, negative: u64) -> Observation
    ensures { result ≡ observed positive negative }
{
    if positive == 0 {
        Observation::Never
    } else if negative == 0 {
        Observation::Always
    } else {
        Observation::Sometimes
    }
}

// One state can decide, and a failure always does. Else a check does that has made all runs.
fn verdict_of(quantifier: Quantifier, reached: Reached, positive: u64, negative: u64) -> Verdict
    ensures { result ≡ verdict_of quantifier reached positive negative }
{
    match (reached, quantifier) {
        (Reached::Failure, _) => Verdict::No,
        (_, Quantifier::Exists) if positive > 0 => Verdict::Ok,
        (_, Quantifier::NotExists) if positive > 0 => Verdict::No,
        (_, Quantifier::Forall) if negative > 0 => Verdict::No,
        (Reached::Part, _) => Verdict::Undecided,
        (Reached::All, Quantifier::Exists) => Verdict::No,
        (Reached::All, Quantifier::NotExists | Quantifier::Forall) => Verdict::Ok,
    }
}
