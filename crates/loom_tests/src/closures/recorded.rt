//! Checks of recorded closures: they make the runs of a check of closures, and call main more seldom, by several workers too. Those that
//! remember states find the same values and failures.
use crate::closures::changes::all_runs;
use crate::closures::finding::Wanted::Changes;
use crate::closures::finding::{
    Main, find, find_by_workers, find_covered, find_in_slices, find_recorded,
};
use crate::closures::holds;
use loom::FailureKind;
use loom::runner::{Host, RunnerError};
use std::process::Abort;
use std::test::Fail;

/// The recorded check makes the runs of the other one, three at least, and calls main more seldom.
fn makes_the_same<R: Abort + Host>(rt: &R, main: Main) -> Result<(), Fail> {
    let plain = find(rt, &all_runs(), main)?;
    let recorded = find_recorded(rt, &all_runs(), main)?;
    holds(rt, plain.runs.len() > 2);
    holds(rt, recorded.is_like_with_fewer_calls(&plain));
    Ok(())
}

#[test]
fn recorded_closures_make_the_same_runs(rt: HostRuntime) -> Result<(), Fail> {
    makes_the_same(&rt, Main::TwoAdds)
}

/// A failure is found by the same choices.
#[test]
fn recorded_closures_fail_by_the_same_choices(rt: HostRuntime) -> Result<(), Fail> {
    makes_the_same(&rt, Main::TwoMutexes)
}

/// A thread that hands over another operation than in an earlier run, after the same replies, is an error of its own.
#[test]
fn a_recorded_closure_that_changes_is_refused(rt: HostRuntime) -> Result<(), Fail> {
    let text =
        "run 2: thread 0 (main) hands over `#0.load(Relaxed)`, where in a run before, when it was told the same, it handed over `#0.fetch_add(1, Relaxed)`; what a thread does is to depend on its handle's answers alone, so let each run begin with new values";
    let found = find_recorded(&rt, &all_runs(), Main::LoadsMore)?;
    holds(&rt, found.comes_to(Changes(2, 0, text)));
    Ok(())
}

/// Each of the two adds is the first one in some run, and the visitor is given as many runs as are counted.
#[test]
fn covered_closures_come_to_each_value(rt: HostRuntime) -> Result<(), Fail> {
    let covered = find_covered(&rt, &all_runs(), Main::TwoAdds)?;
    holds(&rt, covered.completes(covered.runs.len() as u64));
    holds(&rt, covered.has_value(0) && covered.has_value(1));
    Ok(())
}

#[test]
fn covered_closures_fail_as_others_do(rt: HostRuntime) -> Result<(), Fail> {
    let covered = find_covered(&rt, &all_runs(), Main::TwoMutexes)?;
    holds(&rt, covered.fails_by(FailureKind::Deadlock));
    Ok(())
}

/// A thread that hands over another operation than it did is refused here too.
#[test]
fn a_covered_closure_that_changes_is_refused(rt: HostRuntime) -> Result<(), Fail> {
    let covered = find_covered(&rt, &all_runs(), Main::LoadsMore)?;
    holds(&rt, matches!(&covered.report, Err(RunnerError::Changed(_))));
    Ok(())
}

#[test]
fn workers_make_the_runs_of_recorded_closures(rt: HostRuntime) -> Result<(), Fail> {
    let plain = find(&rt, &all_runs(), Main::TwoAdds)?;
    let shared = find_by_workers(&rt, &all_runs(), Main::TwoAdds)?;
    holds(&rt, shared.completes(plain.runs.len() as u64));
    holds(&rt, shared.has_the_runs_with_fewer_calls(&plain));
    Ok(())
}

#[test]
fn workers_find_failures_of_recorded_closures(rt: HostRuntime) -> Result<(), Fail> {
    let shared = find_by_workers(&rt, &all_runs(), Main::TwoMutexes)?;
    holds(&rt, shared.fails_by(FailureKind::Deadlock));
    Ok(())
}

/// A thread that hands over another operation than it did is refused by them too.
#[test]
fn workers_refuse_a_recorded_closure_that_changes(rt: HostRuntime) -> Result<(), Fail> {
    let shared = find_by_workers(&rt, &all_runs(), Main::LoadsMore)?;
    holds(&rt, matches!(&shared.report, Err(RunnerError::Changed(_))));
    Ok(())
}

/// The runs of a part come in the order of the check.
#[test]
fn a_part_is_worked_on_a_run_at_a_time(rt: HostRuntime) -> Result<(), Fail> {
    let plain = find(&rt, &all_runs(), Main::TwoAdds)?;
    let sliced = find_in_slices(&rt, &all_runs(), Main::TwoAdds)?;
    holds(&rt, sliced.is_like(&plain));
    Ok(())
}
