//! Closures that aren't in a run what they were in the one before, under the same choices; and those that pass over stops.
use crate::closures::children::{Task, start};
use crate::closures::finding::Wanted::{Changes, Fails};
use crate::closures::finding::{Counter, Main, comes_to};
use crate::closures::holds;
use loom::FailureKind;
use loom::model::builder::Builder;
use loom::rt::execution::Limits;
use loom::rt::path::{Path, Search};
use loom::runner::{Handle, Stop, Turns};
use loom::sync::atomic::AtomicU64;
use loom::sync::atomic::Ordering::{AcqRel, Relaxed};
use std::sync::Wait;
use std::sync::atomic::Ordering;
use std::test::Fail;
use std::thread::Threads;

/// Two threads add to a number, main twice. In each call but the first one main loads it in between.
pub(super) fn load_more<R: Threads + Wait + Clone + Send + 'static>(
    handle: &mut Handle<u64, R>,
    starts: &Counter,
    call: u64,
) -> Result<u64, Stop> {
    let number = handle.atomic(0u64)?;
    let child = start(handle, Task::Add(number), starts)?;
    handle.fetch_add(&number, 1, Relaxed)?;
    if call > 1 {
        handle.load(&number, Relaxed)?;
    }
    handle.fetch_add(&number, 1, Relaxed)?;
    handle.join(&child)
}

/// Two threads add to a number, main twice. From the third call on the other thread adds 2.
pub(super) fn child_adds_more<R: Threads + Wait + Clone + Send + 'static>(
    handle: &mut Handle<u64, R>,
    starts: &Counter,
    call: u64,
) -> Result<u64, Stop> {
    let number = handle.atomic(0u64)?;
    let task = if call > 2 {
        Task::AddTwo(number)
    } else {
        Task::Add(number)
    };
    let child = start(handle, task, starts)?;
    handle.fetch_add(&number, 1, Relaxed)?;
    handle.fetch_add(&number, 1, Relaxed)?;
    handle.join(&child)
}

/// Counts its start, adds 2, and answers what was there before.
pub(super) fn add_two<R: Wait>(
    handle: &mut Handle<u64, R>,
    number: &AtomicU64,
    starts: &Counter,
) -> Result<u64, Stop> {
    starts.fetch_add(1, Ordering::SeqCst);
    handle.fetch_add(number, 2, AcqRel)
}

/// The settings of a check in which each run is made.
pub(super) fn all_runs() -> Builder {
    let mut builder = Builder::new();
    builder.reduce = false;
    builder
}

#[test]
fn main_that_loads_more_has_changed(rt: HostRuntime) -> Result<(), Fail> {
    let text =
        "run 2: thread 0 (main) hands over `#0.load(Relaxed)`, where in run 1, under the same choices, it handed over `#0.fetch_add(1, Relaxed)`; what a thread does is to depend on its handle's answers alone, so let each run begin with new values";
    comes_to(&rt, &all_runs(), Main::LoadsMore, Changes(2, 0, text), 2, 2)
}

#[test]
fn a_thread_that_adds_more_has_changed(rt: HostRuntime) -> Result<(), Fail> {
    let text =
        "run 3: thread 1 hands over `#0.fetch_add(2, AcqRel)`, where in run 2, under the same choices, it handed over `#0.fetch_add(1, AcqRel)`; what a thread does is to depend on its handle's answers alone, so let each run begin with new values";
    comes_to(
        &rt,
        &all_runs(),
        Main::ChildAddsMore,
        Changes(3, 1, text),
        3,
        3,
    )
}

/// Main passes over each of two thousand stops, and counts them.
pub(super) fn swallow_stops<R: Wait>(
    handle: &mut Handle<u64, R>,
    stops: &Counter,
) -> Result<u64, Stop> {
    let number = handle.atomic(0u64)?;
    handle.fail();
    for _ in 0..2000 {
        if handle.load(&number, Relaxed).is_err() {
            stops.fetch_add(1, Ordering::SeqCst);
        }
    }
    Ok(0)
}

/// Each call after the first stop is answered by it at once, so the run ends, and fails by what stopped it.
#[test]
fn swallowed_stops_end(rt: HostRuntime) -> Result<(), Fail> {
    let wanted = Fails(FailureKind::Assertion, 0, &[]);
    comes_to(&rt, &Builder::new(), Main::Swallows, wanted, 1, 2000)
}

/// A thread that goes on is reported once, after a thousand stops that it was answered again.
#[test]
fn a_thread_that_goes_on_is_told_once(rt: HostRuntime) -> Result<(), Fail> {
    let search = Search {
        reduce: true,
        bound: None,
        max_branches: 10,
        explores: true,
    };
    let limits = Limits {
        max_threads: 5,
        max_steps: 10,
    };
    let mut turns: Turns<u64> = Turns::new(rt.alloc(), &Path::new(rt.alloc(), search), limits)?;
    for _ in 1..1000 {
        turns.answer_again(2);
        turns.answer_again(0);
    }
    holds(&rt, turns.goes_on().is_none());
    turns.answer_again(2);
    holds(&rt, turns.goes_on() == Some(2));
    turns.answer_again(2);
    holds(&rt, turns.goes_on().is_none());
    Ok(())
}
