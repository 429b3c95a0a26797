//! Closures take turns.
use crate::closures::children::{Task, start};
use crate::closures::finding::Wanted::{Complete, Fails};
use crate::closures::finding::{Counter, Main, Run, comes_to, find, passes};
use crate::closures::{NONE, ONE, TWO, ZERO, holds};
use loom::model::builder::Builder;
use loom::runner::{Handle, Stop};
use loom::sync::Mutex;
use loom::sync::atomic::Ordering::{AcqRel, Acquire, Release};
use loom::sync::atomic::{AtomicU64, AtomicUsize};
use loom::{Choice, FailureKind};
use std::sync::Wait;
use std::sync::atomic::Ordering;
use std::test::Fail;
use std::thread::Threads;

/// Locks one mutex and then the other, and counts where a call after a stop was answered by a stop.
pub(super) fn lock_to_stop<R: Wait>(
    handle: &mut Handle<u64, R>,
    outer: &Mutex,
    inner: &Mutex,
    stops: &Counter,
) -> Result<u64, Stop> {
    let answer = lock_both(handle, outer, inner);
    if answer.is_err() && handle.yield_now().is_err() {
        stops.fetch_add(1, Ordering::SeqCst);
    }
    answer
}

/// Holds the one while it locks the other.
fn lock_both<R: Wait>(
    handle: &mut Handle<u64, R>,
    outer: &Mutex,
    inner: &Mutex,
) -> Result<u64, Stop> {
    let (outer, x) = handle.lock(outer)?;
    let (inner, y) = handle.lock(inner)?;
    handle.release(inner, y)?;
    handle.release(outer, x)?;
    Ok(1)
}

/// Two threads lock two mutexes in opposite order. They count the stops that they were given once more.
pub(super) fn two_mutexes<R: Threads + Wait + Clone + Send + 'static>(
    handle: &mut Handle<u64, R>,
    stops: &Counter,
) -> Result<u64, Stop> {
    let a = handle.mutex(0)?;
    let b = handle.mutex(0)?;
    let first = start(handle, Task::LockBoth(a, b), stops)?;
    let second = start(handle, Task::LockBoth(b, a), stops)?;
    handle.join(&first)?;
    handle.join(&second)
}

#[test]
fn two_mutexes_deadlock(rt: HostRuntime) -> Result<(), Fail> {
    let choices = [ONE, ONE, TWO, TWO, NONE];
    let wanted = Fails(FailureKind::Deadlock, 3, choices.as_slice());
    comes_to(&rt, &Builder::new(), Main::TwoMutexes, wanted, 4, 2)
}

/// Counts its start, adds 1, and answers what was there before.
pub(super) fn add_one<R: Wait>(
    handle: &mut Handle<u64, R>,
    atomic: &AtomicU64,
    starts: &Counter,
) -> Result<u64, Stop> {
    starts.fetch_add(1, Ordering::SeqCst);
    let before = handle.fetch_add(atomic, 1, AcqRel)?;
    Ok(before)
}

/// Two threads add 1 to the same number, and what they read before differs. They count their starts.
pub(super) fn two_adds<R: Threads + Wait + Clone + Send + 'static>(
    handle: &mut Handle<u64, R>,
    starts: &Counter,
) -> Result<u64, Stop> {
    starts.fetch_add(1, Ordering::SeqCst);
    let atomic = handle.atomic(0u64)?;
    let child = start(handle, Task::Add(atomic), starts)?;
    let before = handle.fetch_add(&atomic, 1, AcqRel)?;
    let other = handle.join(&child)?;
    handle.assert(before != other)?;
    Ok(before)
}

#[test]
fn fetch_add_atomic(rt: HostRuntime) -> Result<(), Fail> {
    passes(&rt, Main::TwoAdds, 2)
}

/// Main locks a mutex beside a thread that does nothing. Both count their starts.
pub(super) fn counted_lock_beside<R: Threads + Wait + Clone + Send + 'static>(
    handle: &mut Handle<u64, R>,
    starts: &Counter,
) -> Result<u64, Stop> {
    starts.fetch_add(1, Ordering::SeqCst);
    lock_beside(handle, starts)
}

/// The one before, where the thread alone counts its start.
pub(super) fn lock_beside<R: Threads + Wait + Clone + Send + 'static>(
    handle: &mut Handle<u64, R>,
    starts: &Counter,
) -> Result<u64, Stop> {
    let mutex = handle.mutex(0)?;
    start(handle, Task::Start, starts)?;
    pass_through(handle, &mutex)?;
    Ok(7)
}

/// Locks the mutex, and releases it.
pub(super) fn pass_through<R: Wait>(
    handle: &mut Handle<u64, R>,
    mutex: &Mutex,
) -> Result<u64, Stop> {
    let (guard, value) = handle.lock(mutex)?;
    handle.release(guard, value)?;
    Ok(3)
}

/// Counts a start.
pub(super) fn count_start(starts: &Counter) -> u64 {
    starts.fetch_add(1, Ordering::SeqCst);
    3
}

/// The choices of its runs.
static BESIDE: [[Choice; 4]; 3] = [
    [ZERO, ONE, ONE, NONE],
    [ONE, ONE, ZERO, NONE],
    [ONE, ZERO, ONE, NONE],
];

/// Whether these are runs by its choices, in their order, that ended with 7.
fn are_beside(runs: &[Run]) -> bool {
    for k in 0..3 {
        match runs.get(k) {
            Some(run) if run.is(7, BESIDE[k].as_slice()) => {}
            _ => return false,
        }
    }
    true
}

#[test]
fn lock_beside_closures(rt: HostRuntime) -> Result<(), Fail> {
    let mut builder = Builder::new();
    builder.reduce = false;
    let found = find(&rt, &builder, Main::LockBeside)?;
    holds(&rt, found.comes_to(Complete(3)) && found.counts(3, 6));
    holds(&rt, are_beside(found.runs.as_slice()));
    Ok(())
}

/// Main stores 1 and 3, and another thread 2 in between: each waits for what the other stores, and counts that.
pub(super) fn ping_pong<R: Threads + Wait + Clone + Send + 'static>(
    handle: &mut Handle<u64, R>,
    turns: &Counter,
) -> Result<u64, Stop> {
    handle.stop_exploring()?;
    let ball = handle.atomic(0usize)?;
    let child = start(handle, Task::Pong(ball), turns)?;
    handle.store(&ball, 1, Release)?;
    wait_for(handle, &ball, 2, turns)?;
    handle.store(&ball, 3, Release)?;
    handle.join(&child)
}

/// Waits for 1, stores 2, and waits for 3.
pub(super) fn pong<R: Wait>(
    handle: &mut Handle<u64, R>,
    ball: &AtomicUsize,
    turns: &Counter,
) -> Result<u64, Stop> {
    wait_for(handle, ball, 1, turns)?;
    handle.store(ball, 2, Release)?;
    wait_for(handle, ball, 3, turns)?;
    Ok(0)
}

/// Loads until it reads this, and yields in between. Counts that it has read it.
fn wait_for<R: Wait>(
    handle: &mut Handle<u64, R>,
    ball: &AtomicUsize,
    wanted: usize,
    turns: &Counter,
) -> Result<(), Stop> {
    handle.until(|handle| Ok(handle.load(ball, Acquire)? == wanted))?;
    turns.fetch_add(1, Ordering::SeqCst);
    Ok(())
}

#[test]
fn runner_ping_pong(rt: HostRuntime) -> Result<(), Fail> {
    let mut builder = Builder::new();
    builder.max_branches = 200;
    for _ in 0..100 {
        comes_to(&rt, &builder, Main::PingPong, Complete(1), 1, 3)?;
    }
    Ok(())
}
