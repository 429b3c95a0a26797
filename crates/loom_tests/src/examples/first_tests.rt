//! The first tests of a project that `tools/new` makes: the first test of loom's README as closures, and a body, each wrong and
//! right.
use loom::model::{Builder, Report};
use loom::runner::{Handle, Incomplete, Stop, expect_complete};
use loom::sync::atomic::AtomicU64;
use loom::sync::atomic::Ordering::{AcqRel, Acquire, Relaxed, Release};
use loom::{Body, FailureKind};
use loom_examples::bodies::guide::Counter;
use std::sync::Wait;
use std::test::Fail;

/// The first test of loom's README: two threads load a number, and store one more. One may load what the other has loaded.
#[test]
fn buggy_concurrent_inc(rt: HostRuntime) -> Result<(), Fail> {
    let main = |handle: &mut Handle<(), HostRuntime>| {
        let num = handle.named("num").atomic(0u64)?;
        let first = handle.spawn(move |handle| increment(handle, &num))?;
        let second = handle.spawn(move |handle| increment(handle, &num))?;
        handle.join(&first)?;
        handle.join(&second)?;
        let total = handle.load(&num, Relaxed)?;
        handle.assert(total == 2)
    };
    let found = expect_complete(&rt, rt.alloc(), &Builder::new(), main);
    assert!(rt; finds_an_assertion(&found));
    Ok(())
}

/// Loads the number, and stores one more.
fn increment<R: Wait>(handle: &mut Handle<(), R>, num: &AtomicU64) -> Result<(), Stop> {
    let current = handle.load(num, Acquire)?;
    handle.store(num, current.wrapping_add(1), Release)
}

/// Each thread adds by one operation in place of two, so that nothing comes between.
#[test]
fn concurrent_inc(rt: HostRuntime) -> Result<(), Fail> {
    let main = |handle: &mut Handle<(), HostRuntime>| {
        let num = handle.named("num").atomic(0u64)?;
        let first = handle.spawn(move |handle| add_one(handle, &num))?;
        let second = handle.spawn(move |handle| add_one(handle, &num))?;
        handle.join(&first)?;
        handle.join(&second)?;
        let total = handle.load(&num, Relaxed)?;
        handle.assert(total == 2)
    };
    let runs = expect_complete(&rt, rt.alloc(), &Builder::new(), main)?;
    println!(rt; "complete: {runs} runs")?;
    Ok(())
}

/// Adds one to the number.
fn add_one<R: Wait>(handle: &mut Handle<(), R>, num: &AtomicU64) -> Result<(), Stop> {
    handle.fetch_add(num, 1, AcqRel)?;
    Ok(())
}

/// A body: two threads count in a mutex. That main always comes first is wrong, and the run in which it doesn't is explained.
#[test]
fn main_counts_first(rt: HostRuntime) -> Result<(), Fail> {
    let body = Counter::main(1);
    let report = Builder::new().check(&rt, rt.alloc(), &body)?;
    println!(rt; "{report}")?;
    explain(&rt, &body, &report)?;
    assert!(rt; fails_by_assertion(&report), "{report}");
    Ok(())
}

/// That no thread finds two is right.
#[test]
fn no_thread_finds_two(rt: HostRuntime) -> Result<(), Fail> {
    let report = Builder::new().check(&rt, rt.alloc(), &Counter::main(2))?;
    println!(rt; "{report}")?;
    assert!(rt; report.is_complete(), "{report}");
    Ok(())
}

/// Prints the story of the run that failed, if one did.
fn explain<B: Body>(rt: &HostRuntime, body: &B, report: &Report) -> Result<(), Fail> {
    if let Report::Failed { choices, .. } = report {
        let story = Builder::new().explain(rt.alloc(), body, choices.as_slice())?;
        println!(rt; "{story}")?;
    }
    Ok(())
}

/// Whether the check isn't complete, since a run failed by an assertion.
fn finds_an_assertion(found: &Result<u64, Incomplete>) -> bool {
    matches!(found, Err(Incomplete::Found(report)) if fails_by_assertion(report))
}

/// Whether a run failed by an assertion.
fn fails_by_assertion(report: &Report) -> bool {
    matches!(report, Report::Failed { failure, .. } if failure.kind == FailureKind::Assertion)
}
