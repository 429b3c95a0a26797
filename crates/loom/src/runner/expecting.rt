//! A check of closures in a test: where it isn't complete, it prints what was found and what happened in the run that failed.
ghost use Rattle.std.specs.Fn.{CalledAtMut};
ghost use Rattle.loom.specs.Runner.Expected.{IsAnswered};

use crate::model::builder::Builder;
use crate::model::report::Report;
use crate::runner::checks::check_lent;
use crate::runner::defaults::NoVisitor;
use crate::runner::error::RunnerError;
use crate::runner::exact::Exact;
use crate::runner::explanations::explain_lent;
use crate::runner::handle::Handle;
use crate::runner::stop::Stop;
use log::kv::Source;
use log::span::Spans;
use log::{Level, Line, Log, Metadata, Record};
use loom_objects::choice::Choice;
use std::alloc::{AllocError, Global};
use std::fmt::Display;
use std::rt::Files;
use std::sync::Wait;
use std::thread::Threads;
use thiserror::Error;

/// Why a check that was to be complete isn't (own).
#[derive(Debug, Drop, Error)]
pub enum Incomplete {
    /// It gave no report.
    #[error("{0}")]
    NoReport(RunnerError),
    /// A run failed, or a limit was reached.
    #[error("{0}")]
    Found(Report),
}

/// A log that prints which run a check makes, and of a thread that doesn't come back or goes on after a stop.
#[derive(Drop)]
struct Progress<R> {
    rt: R,
}

impl<R: Clone> Progress<R> {
    /// By this runtime; where that can't be had again there is no log.
    fn by(rt: &R) -> Option<Progress<R>> {
        match rt.clone() {
            Ok(rt) => Some(Progress { rt }),
            Err(_) => None,
        }
    }
}

impl<R: Clone> Clone for Progress<R> {
    fn clone(&self) -> Result<Progress<R>, AllocError> {
        Ok(Progress {
            rt: self.rt.clone()?,
        })
    }
}

/// Whether a record is about the run that is made. That a run has failed is printed with its report.
fn is_of_a_run(level: Level, target: &str) -> bool {
    matches!(level, Level::Warn | Level::Info) && target == "loom::runner"
}

impl<R: Print> Log for Progress<R> {
    fn enabled(&self, metadata: &Metadata<'_>) -> bool {
        is_of_a_run(metadata.level(), metadata.target())
    }

    fn log<D: Display, K: Source, S: Spans>(&self, record: &Record<'_, D, K, S>) {
        if is_of_a_run(record.level(), record.target()) {
            let _ = self.rt.println(Line::new(record));
        }
    }

    fn flush(&self) {}

    fn target(&self) -> &str {
        ""
    }
}

/// For tests: checks the closure by these settings, and answers how many runs were made, if the check is complete. Else it prints
/// the report, and of a run that failed what happened in it, as `explain` tells it; and the error makes the test fail (own). Once in
/// ten seconds it prints which run is made.
pub fn expect_complete<
    D: Exact + 'static,
    R: Files + Print + Threads + Wait + Clone + Send + 'static,
    F: FnMut(&mut Handle<D, R>) -> Result<D, Stop>,
>(rt: &R, alloc: Global, builder: &Builder, mut closure: F) -> Result<u64, Incomplete>
    requires { F.IsAlwaysCallable closure }
    ensures { IsAnswered (CalledAtMut F.FnMut) builder.now closure result }
{
    let log = Progress::by(rt);
    match check_lent(rt, alloc, builder, &mut closure, &mut NoVisitor, &log) {
        Ok(Report::Complete { runs }) => Ok(runs),
        Ok(report) => {
            let _ = println!(rt; "{report}");
            if let Report::Failed { choices, .. } = &report {
                print_run(rt, alloc, builder, choices.as_slice(), &mut closure);
            }
            Err(Incomplete::Found(report))
        }
        Err(error) => Err(Incomplete::NoReport(error)),
    }
}

/// Prints what happens in the run by these choices.
fn print_run<
    D: Exact + 'static,
    R: Print + Threads + Wait + Clone + Send + 'static,
    F: FnMut(&mut Handle<D, R>) -> Result<D, Stop>,
>(rt: &R, alloc: Global, builder: &Builder, choices: &[Choice], closure: &mut F)
    requires { F.IsAlwaysCallable closure.old }
{
    match explain_lent(rt, alloc, builder, choices, closure) {
        Ok(explanation) => {
            let _ = println!(rt; "{explanation}");
        }
        Err(error) => {
            let _ = println!(rt; "{error}");
        }
    }
}
