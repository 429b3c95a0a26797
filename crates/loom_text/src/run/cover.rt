//! A test is checked by a search that remembers states, and the final states of the runs that ended are counted.
ghost use Rattle.std.specs.Prelude.{IfOk};
ghost use Rattle.loom_text.specs.Run.Covered.{IsCovering};

use crate::run::counting::Counting;
use crate::run::layout::Layout;
use crate::run::tally::{Counts, Tally};
use crate::run::thread::TestThread;
use crate::test::Test;
use loom::MemoryStore;
use loom::model::builder::Builder;
use loom::model::clock::Clock;
use loom::model::cover::Covered;
use loom::model::error::CheckError;
use std::alloc::Global;

/// What such a check found of a test (own).
#[derive(Drop)]
pub struct Covering {
    /// How the check ended.
    pub covered: Covered,
    /// The final states of the runs that ended without a failure.
    pub counts: Counts,
}

/// Covers the runs of the test's main, by this builder and clock and with at most so many states, and counts the final states of the
/// runs that end. Errors are those of `Builder::cover_with` (own).
pub fn cover<C: Clock, H: Counting>(
    alloc: Global,
    builder: &Builder,
    test: &Test,
    layout: &Layout,
    main: &TestThread,
    clock: &mut C,
    counting: &mut H,
    most_states: usize,
) -> Result<Covering, CheckError>
    ensures { IfOk result (IsCovering builder.now (C.answered clock.new) main.now test.now layout.now) }
{
    let mut tally = Tally::new(alloc, test, layout, counting);
    let mut store = None::<MemoryStore>;
    let log = None::<HostRuntime>;
    let covered = builder.cover_with(
        alloc,
        main,
        &mut tally,
        clock,
        &mut store,
        most_states,
        &log,
    )?;
    Ok(Covering {
        covered,
        counts: tally.into_counts(),
    })
}
