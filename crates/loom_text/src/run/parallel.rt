//! A test is checked by several threads of the host at once, and the final states of its runs are counted.
ghost use Rattle.std.specs.Prelude.{IfOk};
ghost use Rattle.loom.specs.Model.Settings.{explores};
ghost use Rattle.loom_engine.specs.Runs.Body.{runs as runs_of};
ghost use Rattle.loom_text.specs.Run.Parallel.{IsReportOf, IsShared};
ghost use Rattle.loom_text.specs.Run.Thread.{next_of};

use crate::run::check::Outcome;
use crate::run::counting::Counting;
use crate::run::layout::Layout;
use crate::run::tally::Tally;
use crate::run::thread::TestThread;
use crate::test::Test;
use loom::model::Report;
use loom::model::builder::Builder;
use loom::model::clock::Clock;
use loom::model::error::CheckError;
use loom::runner::{Found, Workers, check_parallel};
use loom_engine::rt::parts::Parts;
use std::alloc::{AllocError, Global};
use std::rt::Clock as HostTime;
use std::sync::Wait;
use std::thread::Threads;

/// Makes the runs of the test's main by so many workers, by this builder and clock, and counts their final states. Of several runs
/// that fail in a turn the report has the one that comes first in the order of the walk, and the counts have none of the runs of parts
/// that failed in it. Where a limit is reached the checkpoint is the list of parts that are left. Errors are those of
/// `runner::check_parallel` (own).
pub fn check_by<R: Threads + Wait + HostTime + Sync, C: Clock, H: Counting>(
    rt: &R,
    alloc: Global,
    builder: &Builder,
    test: &Test,
    layout: &Layout,
    main: &TestThread,
    workers: Workers,
    clock: &mut C,
    counting: &mut H,
) -> Result<Outcome, CheckError>
    ensures { IfOk result (IsShared builder.now (runs_of next_of (explores builder.now) builder.now.max_threads builder.now.max_steps main.now) test.now layout.now) }
{
    let mut tally = Tally::new(alloc, test, layout, counting);
    let mut parts = builder.parts(alloc)?;
    let log = None::<HostRuntime>;
    let found = check_parallel(
        rt, alloc, builder, main, workers, &mut parts, &mut tally, clock, &log,
    )?;
    let report = report_of(alloc, found, &parts)?;
    Ok(Outcome {
        report,
        counts: tally.into_counts(),
    })
}

// What was found, as the report of a check, with the list of parts as its checkpoint.
fn report_of(alloc: Global, found: Found, parts: &Parts) -> Result<Report, AllocError>
    ensures { IfOk result (IsReportOf found) }
{
    Ok(match found {
        Found::Complete { runs } => Report::Complete { runs },
        Found::Stopped { runs, limit } => Report::Stopped {
            runs,
            limit,
            checkpoint: parts.to_text(alloc)?,
        },
        Found::Failed {
            runs,
            failure,
            choices,
        } => Report::Failed {
            runs,
            failure,
            choices,
        },
    })
}
