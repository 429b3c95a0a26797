//! Walks of closures.
use crate::asserting::holds;
use crate::examples::walks::{Keeper, walk_of};
use loom::model::{Builder, Replay, Report, Walked};
use loom::runner::{Handle, RunnerError, Stop, shorten, walk};
use loom::{Choice, NoClock};
use loom_examples::closures::rows::ClosureRow;
use loom_examples::closures::scenes::{buggy_concurrent_inc, store_buffering};
use std::process::Abort;
use std::rt::Clock;
use std::sync::Wait;
use std::thread::Threads;

/// What a walk of a hundred runs through store buffering finds, and the choices of its runs. None where it gives no report.
fn walked<R: AllocGlobal + Threads + Wait + Clone + Send + 'static>(
    rt: &R,
    seed: u64,
    depth: Option<u32>,
) -> Option<(Walked, Vec<Choice>)> {
    let alloc = rt.alloc();
    let mut keeper = Keeper {
        choices: Vec::new(alloc),
    };
    let main = |handle: &mut Handle<u64, R>| store_buffering(handle);
    let log = None::<HostRuntime>;
    let found = walk(
        rt,
        alloc,
        &Builder::new(),
        walk_of(seed, depth, 100),
        main,
        &mut keeper,
        &mut NoClock,
        &log,
    )
    .ok()?;
    Some((found, keeper.choices))
}

/// Whether the failure that a walk through the row finds is the one that its choices make again.
fn is_made_again<R: AllocGlobal + Clock + Threads + Wait + Clone + Send + 'static>(
    rt: &R,
    row: ClosureRow,
    depth: Option<u32>,
) -> Option<bool> {
    let (alloc, builder) = (rt.alloc(), row.builder());
    let log = None::<HostRuntime>;
    let found = row
        .walk(rt, alloc, &builder, walk_of(1, depth, 1000), &log)
        .ok()?;
    let Walked::Failed {
        failure,
        choices,
        ..
    } = found
    else {
        return None;
    };
    row.explain(rt, alloc, &builder, choices.as_slice()).ok()?;
    match row.replay(rt, alloc, &builder, choices.as_slice()).ok()? {
        Replay::Failed {
            failure: again,
            choices: same,
        } => Some(again == failure && same == choices),
        Replay::Ended { .. } => Some(false),
    }
}

/// Whether the failure that a walk through the row finds is shortened, to one that its choices make again.
fn is_shortened<R: AllocGlobal + Clock + Threads + Wait + Clone + Send + 'static>(
    rt: &R,
    row: ClosureRow,
) -> Option<bool> {
    let (alloc, builder) = (rt.alloc(), row.builder());
    let log = None::<HostRuntime>;
    let found = row
        .walk(rt, alloc, &builder, walk_of(1, None, 1000), &log)
        .ok()?;
    let Walked::Failed { choices, .. } = found else {
        return None;
    };
    let shorter = row
        .shorten(rt, alloc, &builder, choices.as_slice(), 1000)
        .ok()??;
    let again = row
        .replay(rt, alloc, &builder, shorter.choices.as_slice())
        .ok()?;
    let Replay::Failed {
        failure,
        choices: same,
    } = again
    else {
        return Some(false);
    };
    let is_again = failure == shorter.failure && same == shorter.choices;
    Some(is_again && shorter.runs <= 1000)
}

/// What main does: behind its first run something else.
fn do_other<R: Threads + Wait + Clone + Send + 'static>(
    handle: &mut Handle<u64, R>,
    is_first: &mut bool,
) -> Result<u64, Stop> {
    let was_first = *is_first;
    *is_first = false;
    if was_first {
        buggy_concurrent_inc(handle)
    } else {
        store_buffering(handle)
    }
}

/// Whether it is told that main does something else in its second run.
fn is_told_changed<R: AllocGlobal + Threads + Wait + Clone + Send + 'static>(
    rt: &R,
    choices: &[Choice],
) -> bool {
    let mut is_first = true;
    let main = |handle: &mut Handle<u64, R>| do_other(handle, &mut is_first);
    let found = shorten(rt, rt.alloc(), &Builder::new(), choices, 1000, main);
    match &found {
        Err(RunnerError::Changed(change)) => change.run == 2 && change.thread == 0,
        _ => false,
    }
}

#[test]
fn walks_as_its_seed_says(rt: HostRuntime) {
    for depth in [None, Some(3)] {
        let one = walked(&rt, 7, depth);
        holds(&rt, one.is_some(), "walked");
        holds(&rt, one == walked(&rt, 7, depth), "the same seed");
        holds(&rt, one != walked(&rt, 8, depth), "another seed");
    }
}

/// The failures that walks of this depth find in rows are made again.
fn are_made_again<R: Abort + AllocGlobal + Clock + Threads + Wait + Clone + Send + 'static>(
    rt: &R,
    depth: Option<u32>,
) {
    for row in [
        ClosureRow::TwoMutexesDeadlock,
        ClosureRow::BuggyConcurrentInc,
        ClosureRow::Stops,
    ] {
        let is_so = is_made_again(rt, row, depth) == Some(true);
        holds(rt, is_so, row.name());
    }
}

#[test]
fn its_failures_are_made_again(rt: HostRuntime) {
    are_made_again(&rt, None);
    are_made_again(&rt, Some(3));
}

#[test]
fn its_failures_are_shortened(rt: HostRuntime) {
    for row in [
        ClosureRow::TwoMutexesDeadlock,
        ClosureRow::BuggyConcurrentInc,
        ClosureRow::Stops,
    ] {
        let is_so = is_shortened(&rt, row) == Some(true);
        holds(&rt, is_so, row.name());
    }
}

#[test]
fn a_change_is_told_where_it_shortens(rt: HostRuntime) {
    let row = ClosureRow::BuggyConcurrentInc;
    let found = row.check_by(&rt, rt.alloc(), &row.builder());
    let is_told = match &found {
        Ok(Report::Failed { choices, .. }) => is_told_changed(&rt, choices.as_slice()),
        _ => false,
    };
    holds(&rt, is_told, "changed");
}
