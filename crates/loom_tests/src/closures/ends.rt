//! Closures that end otherwise than by their result, or not as in the run before.
use crate::closures::children::{Task, start};
use crate::closures::finding::Wanted::{Fails, NoMemory, NoSettings};
use crate::closures::finding::{Counter, Main, comes_to};
use crate::closures::{NONE, ONE, ZERO};
use loom::model::builder::Builder;
use loom::runner::{Handle, Stop};
use loom::{Choice, FailureKind};
use std::sync::Wait;
use std::sync::atomic::Ordering;
use std::test::Fail;
use std::thread::Threads;

/// The choices of a run without a branch point.
static NO_CHOICES: [Choice; 0] = [];

/// Main locks a mutex, which a thread locks and releases, and ends without a release.
pub(super) fn guard_left<R: Threads + Wait + Clone + Send + 'static>(
    handle: &mut Handle<u64, R>,
    counter: &Counter,
) -> Result<u64, Stop> {
    let mutex = handle.mutex(0)?;
    start(handle, Task::PassThrough(mutex), counter)?;
    handle.lock(&mutex)?;
    Ok(7)
}

#[test]
fn guard_left_closures(rt: HostRuntime) -> Result<(), Fail> {
    let choices = [ZERO, ONE, NONE];
    let wanted = Fails(FailureKind::Deadlock, 0, choices.as_slice());
    comes_to(&rt, &Builder::new(), Main::GuardLeft, wanted, 1, 0)
}

/// Main is given a stop, calls twice more, and counts where it was given a stop each time.
pub(super) fn pass_over_stops<R: Wait>(
    handle: &mut Handle<u64, R>,
    stops: &Counter,
) -> Result<u64, Stop> {
    handle.fail();
    if handle.yield_now().is_err() && handle.mutex(0).is_err() {
        stops.fetch_add(1, Ordering::SeqCst);
    }
    Ok(0)
}

/// A closure that is given a stop, and calls once more, is given a stop again.
#[test]
fn closure_deaf(rt: HostRuntime) -> Result<(), Fail> {
    let wanted = Fails(FailureKind::Assertion, 0, NO_CHOICES.as_slice());
    comes_to(&rt, &Builder::new(), Main::Deaf, wanted, 1, 1)
}

/// A closure that answers a stop without having been given one has failed.
#[test]
fn closure_stops(rt: HostRuntime) -> Result<(), Fail> {
    let wanted = Fails(FailureKind::Assertion, 0, NO_CHOICES.as_slice());
    comes_to(&rt, &Builder::new(), Main::Stops, wanted, 1, 0)
}

/// A closure that found no memory ends the check for want of it.
#[test]
fn closure_starves(rt: HostRuntime) -> Result<(), Fail> {
    comes_to(&rt, &Builder::new(), Main::Starves, NoMemory, 1, 0)
}

/// A closure that does something else from its second run on: it starts twice, and the other closure once.
#[test]
fn closure_changes(rt: HostRuntime) -> Result<(), Fail> {
    let mut builder = Builder::new();
    builder.reduce = false;
    let wanted = Fails(FailureKind::NotDeterministic, 1, NO_CHOICES.as_slice());
    comes_to(&rt, &builder, Main::Changes, wanted, 2, 1)
}

#[test]
fn settings_are_refused(rt: HostRuntime) -> Result<(), Fail> {
    let mut builder = Builder::new();
    builder.max_threads = 6;
    comes_to(&rt, &builder, Main::Nothing, NoSettings, 0, 0)
}
