//! The answer of a test, as herd7 prints it.
use crate::run::check::Outcome;
use crate::run::cover::Covering;
use crate::run::layout::Layout;
use crate::run::summary::Summary;
use crate::run::tally::Counts;
use crate::run::walk::Seen;
use crate::test::{Condition, Quantifier, Term, Test};
use loom::model::cover::Covered;
use loom::model::{Limit, Report, Walked};
use loom::{Choice, Failure, ShownChoices};
use loom_views::rt::failure::FailureKind;
use std::fmt;

/// What was found of a test (own).
#[derive(Clone, Copy)]
pub struct Answer<'a> {
    /// The test.
    pub test: &'a Test,
    /// What its final states are made of.
    pub layout: &'a Layout,
    /// What a search of it found.
    pub found: &'a Found,
}

/// What a search found (own).
#[derive(Drop)]
pub enum Found {
    /// A check that was to make each run.
    Whole(Outcome),
    /// A check that was to make those that a reduced or bounded search calls for.
    Reduced(Outcome),
    /// A check that remembers states.
    Covering(Covering),
}

/// How a search ended. `runs` counts the runs that ended without a failure, and `met` those that were given up where a state was met.
#[derive(Clone, Copy)]
pub(crate) enum End<'a> {
    /// Nothing is left to be tried.
    Complete {
        runs: u64,
    },
    /// Nothing is left to be tried, but after these choices no run ends.
    Livelock {
        runs: u64,
        choices: &'a [Choice],
    },
    /// A limit was reached.
    Stopped {
        runs: u64,
        met: u64,
        limit: Limit,
    },
    /// A run failed, under these choices.
    Failed {
        runs: u64,
        met: u64,
        failure: Failure,
        choices: &'a [Choice],
    },
}

/// What a walk has seen of a test (own).
#[derive(Clone, Copy)]
pub struct Sight<'a> {
    /// The test.
    pub test: &'a Test,
    /// What its final states are made of.
    pub layout: &'a Layout,
    /// What a walk through its runs has seen.
    pub seen: &'a Seen,
}

/// The answer in lines, as herd7 prints it: the question, the states, a failure or a limit, whether the test holds, and how often
/// its condition was met. Where not each run was to be made, it is said that the counts are of those that were.
impl fmt::Display for Answer<'_> {
    fn fmt<W: fmt::Write>(&self, f: &mut fmt::Formatter<W>) -> fmt::Result {
        write_states(f, self.test, self.layout, self.counts())?;
        self.end().write(f)?;
        let counted = match self.found {
            Found::Whole(_) => "",
            Found::Reduced(_) | Found::Covering(_) => {
                "The counts are of the runs that this search made.\n"
            }
        };
        write_summary(f, self.test, self.summary(), counted)
    }
}

/// The lines of a walk are those of an answer, with how many runs it made in place of a limit.
impl fmt::Display for Sight<'_> {
    fn fmt<W: fmt::Write>(&self, f: &mut fmt::Formatter<W>) -> fmt::Result {
        write_states(f, self.test, self.layout, &self.seen.counts)?;
        match &self.seen.walked {
            Walked::Made {
                runs,
                cut,
                different,
            } => {
                writeln!(
                    f,
                    "Walked: {runs} runs, and {cut} that were cut by their length"
                )?;
                if let Some(count) = different {
                    writeln!(f, "Different: {count}")?;
                }
                writeln!(f, "The states are those of these runs.")?;
            }
            Walked::Failed {
                runs,
                cut,
                failure,
                choices,
            } => write_failure(f, runs.saturating_add(*cut), failure, choices)?,
        }
        let counted = "The counts are of runs that were drawn.\n";
        write_summary(f, self.test, self.summary(), counted)
    }
}

impl Sight<'_> {
    /// What the states say of the condition (own).
    pub fn summary(&self) -> Summary {
        Summary::seen(self.test, self.seen)
    }
}

impl<'a> Answer<'a> {
    /// What the states say of the condition (own).
    pub fn summary(&self) -> Summary {
        match self.found {
            Found::Whole(outcome) | Found::Reduced(outcome) => Summary::of(self.test, outcome),
            Found::Covering(covering) => Summary::covered(self.test, covering),
        }
    }

    /// The final states of the runs that ended without a failure.
    pub(crate) fn counts(&self) -> &'a Counts {
        match self.found {
            Found::Whole(outcome) | Found::Reduced(outcome) => &outcome.counts,
            Found::Covering(covering) => &covering.counts,
        }
    }

    /// How the search ended.
    pub(crate) fn end(&self) -> End<'a> {
        match self.found {
            Found::Whole(outcome) | Found::Reduced(outcome) => End::of_report(&outcome.report),
            Found::Covering(covering) => End::of_covered(&covering.covered),
        }
    }
}

impl<'a> End<'a> {
    fn of_report(report: &'a Report) -> End<'a> {
        match report {
            Report::Complete { runs } => End::Complete { runs: *runs },
            Report::Stopped { runs, limit, .. } => End::Stopped {
                runs: *runs,
                met: 0,
                limit: *limit,
            },
            Report::Failed {
                runs,
                failure,
                choices,
            } => End::Failed {
                runs: *runs,
                met: 0,
                failure: *failure,
                choices: choices.as_slice(),
            },
        }
    }

    fn of_covered(covered: &'a Covered) -> End<'a> {
        match covered {
            Covered::Complete { runs, .. } => End::Complete { runs: *runs },
            Covered::Livelock { runs, choices, .. } => End::Livelock {
                runs: *runs,
                choices: choices.as_slice(),
            },
            Covered::Stopped {
                runs,
                met,
                limit,
                ..
            } => End::Stopped {
                runs: *runs,
                met: *met,
                limit: *limit,
            },
            Covered::Failed {
                runs,
                met,
                failure,
                choices,
                ..
            } => End::Failed {
                runs: *runs,
                met: *met,
                failure: *failure,
                choices: choices.as_slice(),
            },
        }
    }

    // Why the states may not be all, if they may.
    fn write<W: fmt::Write>(&self, f: &mut fmt::Formatter<W>) -> fmt::Result {
        match *self {
            End::Complete { .. } => Ok(()),
            End::Livelock { choices, .. } => write_livelock(f, choices),
            End::Stopped { runs, met, limit } => {
                let made = runs.saturating_add(met);
                writeln!(f, "Stopped: `{limit}` was reached after {made} runs")?;
                writeln!(f, "The states are those found up to there.")
            }
            End::Failed {
                runs,
                met,
                failure,
                choices,
            } => write_failure(f, runs.saturating_add(met), &failure, choices),
        }
    }
}

// What was asked of the test, and its states, each in a line.
fn write_states<W: fmt::Write>(
    f: &mut fmt::Formatter<W>,
    test: &Test,
    layout: &Layout,
    counts: &Counts,
) -> fmt::Result {
    let name = test.name.as_str();
    let question = Question(test.quantifier);
    writeln!(f, "Test {name} {question}")?;
    let states = counts.states.as_slice();
    let count = states.len();
    writeln!(f, "States {count}")?;
    for state in states {
        let line = ShownNumbers {
            test,
            terms: layout.terms.as_slice(),
            numbers: state.numbers(),
        };
        writeln!(f, "{line}")?;
    }
    Ok(())
}

// The failure of the run after so many, and its choices.
fn write_failure<W: fmt::Write>(
    f: &mut fmt::Formatter<W>,
    runs: u64,
    failure: &Failure,
    choices: &[Choice],
) -> fmt::Result {
    let flag = flag_of(failure.kind);
    let number = runs.saturating_add(1);
    let choices = ShownChoices(choices);
    writeln!(f, "Flag {flag}")?;
    writeln!(f, "failed in run {number}: {failure}")?;
    writeln!(f, "replay: {choices}")?;
    writeln!(f, "The states are those found up to the failure.")
}

// The choices after which no run ends.
fn write_livelock<W: fmt::Write>(f: &mut fmt::Formatter<W>, choices: &[Choice]) -> fmt::Result {
    let choices = ShownChoices(choices);
    writeln!(f, "Flag livelock")?;
    writeln!(f, "no run ends after these choices: {choices}")?;
    writeln!(f, "The states are those of the runs that end.")
}

// Whether the test holds, and how often its condition was met, with a line of what is counted.
fn write_summary<W: fmt::Write>(
    f: &mut fmt::Formatter<W>,
    test: &Test,
    summary: Summary,
    counted: &str,
) -> fmt::Result {
    let Summary {
        positive,
        negative,
        observation,
        verdict,
    } = summary;
    let name = test.name.as_str();
    let asked = ShownQuestion(test);
    writeln!(f, "{verdict}")?;
    writeln!(f, "Witnesses")?;
    writeln!(f, "Positive: {positive} Negative: {negative}")?;
    f.write_str(counted)?;
    writeln!(f, "Condition {asked}")?;
    writeln!(f, "Observation {name} {observation} {positive} {negative}")
}

/// The word for what is asked (herd7's).
#[derive(Clone, Copy)]
pub(crate) struct Question(pub(crate) Quantifier);

impl fmt::Display for Question {
    fn fmt<W: fmt::Write>(&self, f: &mut fmt::Formatter<W>) -> fmt::Result {
        f.write_str(match self.0 {
            Quantifier::Exists => "Allowed",
            Quantifier::NotExists => "Forbidden",
            Quantifier::Forall => "Required",
        })
    }
}

/// A term as states show it: `0:r0` or `[x]`.
#[derive(Clone, Copy)]
pub(crate) struct ShownTerm<'a> {
    pub(crate) test: &'a Test,
    pub(crate) term: Term,
}

impl fmt::Display for ShownTerm<'_> {
    fn fmt<W: fmt::Write>(&self, f: &mut fmt::Formatter<W>) -> fmt::Result {
        let name = self.test.name_of(self.term);
        match self.term {
            Term::Register { thread, .. } => write!(f, "{thread}:{name}"),
            Term::Location(_) => write!(f, "[{name}]"),
        }
    }
}

/// A state's numbers, each with its term, in a line.
#[derive(Clone, Copy)]
pub(crate) struct ShownNumbers<'a> {
    pub(crate) test: &'a Test,
    pub(crate) terms: &'a [Term],
    pub(crate) numbers: &'a [u32],
}

impl fmt::Display for ShownNumbers<'_> {
    fn fmt<W: fmt::Write>(&self, f: &mut fmt::Formatter<W>) -> fmt::Result {
        for (place, number) in self.numbers.iter().enumerate() {
            if place < self.terms.len() {
                let number = number.cast_signed();
                let term = ShownTerm {
                    test: self.test,
                    term: self.terms[place],
                };
                let space = if place == 0 { "" } else { " " };
                write!(f, "{space}{term}={number};")?;
            }
        }
        Ok(())
    }
}

/// What the test asks, as its text says it: `exists (0:r0=0 /\ 1:r0=0)`.
#[derive(Clone, Copy)]
pub(crate) struct ShownQuestion<'a>(pub(crate) &'a Test);

impl fmt::Display for ShownQuestion<'_> {
    fn fmt<W: fmt::Write>(&self, f: &mut fmt::Formatter<W>) -> fmt::Result {
        let test = self.0;
        f.write_str(match test.quantifier {
            Quantifier::Exists => "exists (",
            Quantifier::NotExists => "~exists (",
            Quantifier::Forall => "forall (",
        })?;
        write_condition(f, test, &test.condition, false)?;
        f.write_str(")")
    }
}

// The condition, in parentheses where it is within another one and they are needed.
fn write_condition<W: fmt::Write>(
    f: &mut fmt::Formatter<W>,
    test: &Test,
    condition: &Condition,
    is_within: bool,
) -> fmt::Result {
    match condition {
        Condition::Equal(term, number) => {
            let term = ShownTerm { test, term: *term };
            write!(f, "{term}={number}")
        }
        Condition::Not(condition) => {
            f.write_str("~(")?;
            write_condition(f, test, condition, false)?;
            f.write_str(")")
        }
        Condition::And(one, other) => {
            write_condition(f, test, one, true)?;
            f.write_str(" /\\ ")?;
            write_condition(f, test, other, true)
        }
        Condition::Or(one, other) => {
            f.write_str(if is_within { "(" } else { "" })?;
            write_condition(f, test, one, false)?;
            f.write_str(" \\/ ")?;
            write_condition(f, test, other, false)?;
            f.write_str(if is_within { ")" } else { "" })
        }
    }
}

/// The word for a failure.
pub(crate) fn flag_of(kind: FailureKind) -> &'static str {
    match kind {
        FailureKind::Assertion => "assertion",
        FailureKind::Deadlock => "deadlock",
        FailureKind::Race | FailureKind::OpenAccess => "race",
        FailureKind::LeakArc | FailureKind::LeakTrack | FailureKind::LeakMessages => "leak",
        FailureKind::TooManyThreads => "threads",
        FailureKind::TooManyBranches => "branches",
        FailureKind::TooManyVersions => "accesses",
        FailureKind::TooManyStores => "stores",
        FailureKind::TooManySteps => "steps",
        FailureKind::OrdersEqual => "orders",
        FailureKind::Misuse
        | FailureKind::LazyShutdown
        | FailureKind::LocalGone
        | FailureKind::SecondWaiter
        | FailureKind::KeyTaken => "misuse",
        FailureKind::Unreachable => "unreachable",
        FailureKind::RelaxedFence => "fence",
        FailureKind::ExploreSwitch => "explore",
        FailureKind::NotDeterministic => "choices",
    }
}
