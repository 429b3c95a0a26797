//! What a check of closures tells its log of a run that failed: the report, and what happened in the run.
use crate::model::builder::Builder;
use crate::model::report::Report;
use crate::runner::error::RunnerError;
use crate::runner::exact::Exact;
use crate::runner::explanations::explain_lent;
use crate::runner::handle::Handle;
use crate::runner::stop::Stop;
use log::{Level, Log, Metadata, error};
use std::alloc::Global;
use std::sync::Wait;
use std::thread::Threads;

/// Tells the log of the run that failed, if one did and the log hears errors. For what happened in it the closure is called once more.
pub(crate) fn tell_failure<
    D: Exact + 'static,
    R: Threads + Wait + Clone + Send + 'static,
    F: FnMut(&mut Handle<D, R>) -> Result<D, Stop>,
    L: Log,
>(
    rt: &R,
    alloc: Global,
    builder: &Builder,
    found: &Result<Report, RunnerError>,
    closure: &mut F,
    log: &L,
)
    requires { F.IsAlwaysCallable closure.old }
    ensures { F.IsAlwaysCallable closure.new }
{
    let Ok(report) = found else {
        return;
    };
    let Report::Failed { choices, .. } = report else {
        return;
    };
    if !log.enabled(&Metadata::new(Level::Error, "loom::runner")) {
        return;
    }
    match explain_lent(rt, alloc, builder, choices.as_slice(), closure) {
        Ok(explanation) => {
            error!(log; target: "loom::runner", "{}\n{}", report, explanation);
        }
        Err(why) => {
            error!(log; target: "loom::runner", "{}\n{}", report, why);
        }
    }
}
