//! A test is checked: its runs are made, and their final states counted.
ghost use Rattle.std.specs.Prelude.{◌≡◌, IfOk};
ghost use Rattle.loom.specs.Model.Settings.{explores};
ghost use Rattle.loom_engine.specs.Runs.Body.{runs as runs_of};
ghost use Rattle.loom_text.specs.Run.Check.{IsOutcome, is_whole};
ghost use Rattle.loom_text.specs.Run.Thread.{next_of};

use crate::run::counting::Counting;
use crate::run::layout::Layout;
use crate::run::tally::{Counts, Tally};
use crate::run::thread::TestThread;
use crate::test::Test;
use loom::checkpoint::memory::MemoryStore;
use loom::model::Report;
use loom::model::builder::Builder;
use loom::model::clock::Clock;
use loom::model::error::CheckError;
use std::alloc::Global;

/// What a check found of a test (own).
#[derive(Drop)]
pub struct Outcome {
    /// How the check ended, after how many runs.
    pub report: Report,
    /// The final states of the runs that ended without a failure.
    pub counts: Counts,
}

/// Whether a check by this builder tries each option at each node, so that it makes every run (own).
pub fn is_whole(builder: &Builder) -> bool
    ensures { result ≡ is_whole builder.now }
{
    !builder.reduce && builder.preemption_bound.is_none() && !builder.expect_explicit_explore
}

/// Makes the runs of the test's main, by this builder and clock, and counts their final states. Errors are those of
/// `Builder::check_with` without a store (own).
pub fn check<C: Clock, H: Counting>(
    alloc: Global,
    builder: &Builder,
    test: &Test,
    layout: &Layout,
    main: &TestThread,
    clock: &mut C,
    counting: &mut H,
) -> Result<Outcome, CheckError>
    ensures { IfOk result (IsOutcome builder.now (runs_of next_of (explores builder.now) builder.now.max_threads builder.now.max_steps main.now) test.now layout.now) }
{
    let mut tally = Tally::new(alloc, test, layout, counting);
    let mut store = None::<MemoryStore>;
    let log = None::<HostRuntime>;
    let report = builder.check_with(alloc, main, &mut tally, clock, &mut store, &log)?;
    Ok(Outcome {
        report,
        counts: tally.into_counts(),
    })
}
