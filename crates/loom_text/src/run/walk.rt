//! A walk through a test: so many of its runs are made, whose choices are drawn, and their final states counted.
ghost use Rattle.std.specs.Prelude.{IfOk};
ghost use Rattle.loom.specs.Model.Settings.{explores};
ghost use Rattle.loom_engine.specs.Runs.Body.{runs as runs_of};
ghost use Rattle.loom_text.specs.Run.Drawn.{IsSeen};
ghost use Rattle.loom_text.specs.Run.Thread.{next_of};

use crate::run::counting::Unheard;
use crate::run::layout::Layout;
use crate::run::tally::{Counts, Tally};
use crate::run::thread::TestThread;
use crate::test::Test;
use loom::model::builder::Builder;
use loom::model::clock::Clock;
use loom::model::error::CheckError;
use loom::model::{Walk, Walked};
use std::alloc::Global;

/// What a walk has seen of a test (own).
#[derive(Drop)]
pub struct Seen {
    /// How the walk ended, after how many runs.
    pub walked: Walked,
    /// The final states of the runs that ended without a failure.
    pub counts: Counts,
}

/// Makes runs of the test's main that are drawn so, by this builder and clock, and counts their final states. Errors are those of
/// `Builder::walk` (own).
pub fn walk<C: Clock>(
    alloc: Global,
    builder: &Builder,
    test: &Test,
    layout: &Layout,
    main: &TestThread,
    walk: Walk,
    clock: &mut C,
) -> Result<Seen, CheckError>
    ensures { IfOk result (IsSeen builder.now (runs_of next_of (explores builder.now) builder.now.max_threads builder.now.max_steps main.now) test.now layout.now) }
{
    let mut unheard = Unheard;
    let mut tally = Tally::new(alloc, test, layout, &mut unheard);
    let log = None::<HostRuntime>;
    let walked = builder.walk(alloc, main, walk, &mut tally, clock, &log)?;
    Ok(Seen {
        walked,
        counts: tally.into_counts(),
    })
}
