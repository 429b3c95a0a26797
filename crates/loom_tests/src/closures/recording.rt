//! Checks whose builder says that closures are recorded: they find what others find, and call main more seldom.
use crate::closures::changes::all_runs;
use crate::closures::finding::Wanted::Changes;
use crate::closures::finding::{Main, find};
use crate::closures::holds;
use loom::model::builder::Builder;
use std::test::Fail;

/// The settings of a recorded check in which each run is made.
fn all_runs_recorded() -> Builder {
    let mut builder = all_runs();
    builder.recorded = true;
    builder
}

#[test]
fn a_recorded_check_makes_the_same_runs(rt: HostRuntime) -> Result<(), Fail> {
    let plain = find(&rt, &all_runs(), Main::TwoAdds)?;
    let recorded = find(&rt, &all_runs_recorded(), Main::TwoAdds)?;
    holds(&rt, recorded.is_like_with_fewer_calls(&plain));
    Ok(())
}

/// Main isn't a function of its replies: it loads more from its second call on.
#[test]
fn a_recorded_check_refuses_main_that_loads_more(rt: HostRuntime) -> Result<(), Fail> {
    let text =
        "run 2: thread 0 (main) hands over `#0.load(Relaxed)`, where in a run before, when it was told the same, it handed over `#0.fetch_add(1, Relaxed)`; what a thread does is to depend on its handle's answers alone, so let each run begin with new values";
    let found = find(&rt, &all_runs_recorded(), Main::LoadsMore)?;
    holds(&rt, found.comes_to(Changes(2, 0, text)));
    Ok(())
}
