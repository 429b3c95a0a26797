//! Checks of closures that stop, and go on from the text of their path.
use crate::closures::holds;
use loom::model::error::CheckError;
use loom::model::visitor::Visitor;
use loom::model::{Builder, Limit, Report};
use loom::runner::{Handle, NoVisitor, RunnerError, check, check_rising, check_with};
use loom::{CheckpointStore, Choice, FailureKind, MemoryStore, NoClock};
use loom_examples::closures::rows::ClosureRow;
use loom_examples::closures::scenes;
use std::alloc::{AllocError, Global};
use std::fs;
use std::process::Abort;
use std::sync::Wait;
use std::test::Fail;
use std::thread::Threads;

const FILE: &str = "loom_tests_closures.json";

const OWN_FILE: &str = "loom_tests_own_closures.json";

/// Keeps the choices of each run that it is given.
#[derive(Drop)]
struct Lists {
    alloc: Global,
    lists: Vec<Vec<Choice>>,
}

impl<D: Drop> Visitor<D> for Lists {
    ghost takes = { λ old choices value new. Unit {0} };

    fn run(&mut self, choices: &[Choice], _value: D) -> Result<(), AllocError> {
        self.lists.push(choices.to_vec(self.alloc)?)?;
        Ok(())
    }
}

/// A check of store buffering by closures, without a clock and a log.
fn check_store_buffering<R: Threads + Wait + Clone + Send + 'static>(
    rt: &R,
    alloc: Global,
    builder: &Builder,
    lists: &mut Lists,
    store: &mut MemoryStore,
) -> Result<Report, RunnerError> {
    let main = |handle: &mut Handle<u64, R>| scenes::store_buffering(handle);
    let log = None::<HostRuntime>;
    check_with(rt, alloc, builder, main, lists, &mut NoClock, store, &log)
}

/// Whether the report is that so many runs were made, up to this limit.
pub(super) fn is_stopped(report: &Result<Report, RunnerError>, count: u64, by: Limit) -> bool {
    match report {
        Ok(Report::Stopped { runs, limit, .. }) => *runs == count && *limit == by,
        _ => false,
    }
}

/// Whether it is that the check is complete with so many runs.
pub(super) fn is_complete(report: &Result<Report, RunnerError>, count: u64) -> bool {
    matches!(report, Ok(Report::Complete { runs }) if *runs == count)
}

/// The choices of each run of two checks, the first of so many runs, and the second from the text of the first.
fn stopped_after<R: Abort + AllocGlobal + Threads + Wait + Clone + Send + 'static>(
    rt: &R,
    runs: usize,
) -> Result<Vec<Vec<Choice>>, Fail> {
    let alloc: Global = rt.alloc();
    let mut lists = Lists {
        alloc,
        lists: Vec::new(alloc),
    };
    let mut store = MemoryStore::new(alloc);
    let mut builder = Builder::new();
    builder.max_permutations = Some(runs);
    let report = check_store_buffering(rt, alloc, &builder, &mut lists, &mut store);
    let count = runs as u64;
    holds(rt, is_stopped(&report, count, Limit::Permutations));
    builder.max_permutations = None;
    let report = check_store_buffering(rt, alloc, &builder, &mut lists, &mut store);
    holds(rt, is_complete(&report, 30u64.saturating_sub(count)));
    let Lists { alloc: _, lists } = lists;
    Ok(lists)
}

/// A check that stops after some runs goes on to the lists of choices of the whole check, in their order.
#[test]
fn a_stopped_check_goes_on_to_the_same_runs(rt: HostRuntime) -> Result<(), Fail> {
    let whole = stopped_after(&rt, 0)?;
    holds(&rt, whole.len() == 30);
    for runs in [1usize, 7, 15, 29] {
        let lists = stopped_after(&rt, runs)?;
        holds(&rt, lists.as_slice() == whole.as_slice());
    }
    Ok(())
}

/// A row of closures goes on from its file.
#[test]
fn a_row_goes_on_from_its_file(rt: HostRuntime) -> Result<(), Fail> {
    let _ = fs::remove_file(&rt, FILE);
    let mut builder = ClosureRow::StoreBuffering.builder_with(
        rt.alloc(),
        Builder::new(),
        Some(FILE),
    )?;
    builder.max_permutations = Some(12);
    let first = ClosureRow::StoreBuffering.check_by(&rt, rt.alloc(), &builder);
    builder.max_permutations = None;
    let second = ClosureRow::StoreBuffering.check_by(&rt, rt.alloc(), &builder);
    let _ = fs::remove_file(&rt, FILE);
    holds(&rt, is_stopped(&first, 12, Limit::Permutations));
    holds(&rt, is_complete(&second, 18));
    Ok(())
}

/// `check` goes on from the builder's file.
#[test]
fn a_check_keeps_the_file_of_its_builder(rt: HostRuntime) -> Result<(), Fail> {
    let _ = fs::remove_file(&rt, OWN_FILE);
    let mut builder = Builder::new();
    builder.checkpoint_file(rt.alloc(), OWN_FILE)?;
    builder.max_permutations = Some(4);
    let main = |handle: &mut Handle<u64, HostRuntime>| scenes::store_buffering(handle);
    let first = check(&rt, rt.alloc(), &builder, main, &mut NoVisitor);
    builder.max_permutations = None;
    let main = |handle: &mut Handle<u64, HostRuntime>| scenes::store_buffering(handle);
    let second = check(&rt, rt.alloc(), &builder, main, &mut NoVisitor);
    let _ = fs::remove_file(&rt, OWN_FILE);
    holds(&rt, is_stopped(&first, 4, Limit::Permutations));
    holds(&rt, is_complete(&second, 26));
    Ok(())
}

/// The deadlock needs one preemption, and store buffering comes up to the last bound.
#[test]
fn bounds_rise(rt: HostRuntime) -> Result<(), Fail> {
    let mut builder = Builder::new();
    builder.reduce = false;
    let main = |handle: &mut Handle<u64, HostRuntime>| scenes::two_mutexes(handle);
    let risen = check_rising(&rt, rt.alloc(), &builder, main, 3)?;
    holds(&rt, risen.bound == 1 && !risen.report.is_complete());
    let main = |handle: &mut Handle<u64, HostRuntime>| scenes::store_buffering(handle);
    let risen = check_rising(&rt, rt.alloc(), &builder, main, 2)?;
    holds(&rt, risen.bound == 2 && risen.report.is_complete());
    Ok(())
}

/// A check of locks beside a thread that begins with the text in the store, and how often its closure was called.
fn check_lock_beside<R: AllocGlobal + Threads + Wait + Clone + Send + 'static>(
    rt: &R,
    store: &mut MemoryStore,
) -> (Result<Report, RunnerError>, u64) {
    let mut calls = 0u64;
    let main = |handle: &mut Handle<u64, R>| {
        calls = calls.saturating_add(1);
        scenes::lock_beside(handle)
    };
    let log = None::<HostRuntime>;
    let answer = check_with(
        rt,
        rt.alloc(),
        &Builder::new(),
        main,
        &mut NoVisitor,
        &mut NoClock,
        store,
        &log,
    );
    (answer, calls)
}

/// A text that is none is refused before any run.
#[test]
fn a_text_that_is_no_path_is_refused(rt: HostRuntime) {
    let mut store = MemoryStore::new(rt.alloc());
    holds(&rt, store.save("no path").is_ok());
    let (answer, calls) = check_lock_beside(&rt, &mut store);
    holds(
        &rt,
        matches!(answer, Err(RunnerError::Settings(CheckError::NotJson))),
    );
    holds(&rt, calls == 0);
}

/// The path of another closure is told apart in the first run.
#[test]
fn a_path_of_another_closure_is_told_apart(rt: HostRuntime) {
    let alloc: Global = rt.alloc();
    let mut lists = Lists {
        alloc,
        lists: Vec::new(alloc),
    };
    let mut store = MemoryStore::new(alloc);
    let mut builder = Builder::new();
    builder.max_permutations = Some(3);
    let report = check_store_buffering(&rt, alloc, &builder, &mut lists, &mut store);
    holds(&rt, is_stopped(&report, 3, Limit::Permutations));
    let (report, _) = check_lock_beside(&rt, &mut store);
    match report {
        Ok(Report::Failed { runs, failure, .. }) => holds(
            &rt,
            runs == 0 && failure.kind == FailureKind::NotDeterministic,
        ),
        _ => holds(&rt, false),
    }
}
