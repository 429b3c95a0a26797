//! Closures in runs as large as they may be, with memory enough: no run is given up for want of it.
use crate::closures::holds;
use loom::model::Report;
use loom::runner::{Handle, Stop, model};
use loom::sync::Mutex;
use loom::thread::LocalKey;
use loom_ops::answers::cell::Given;
use std::sync::Wait;
use std::test::Fail;

// A lock has a node, and the run's end is the thousandth.
const LOCKS: u64 = 999;

// More than a thousand values of main's own, which its end gives back.
const VALUES: usize = 2000;

/// Main makes its values, each of them once.
fn make_values<R: Wait>(handle: &mut Handle<u64, R>) -> Result<(), Stop> {
    for key in 0..VALUES {
        let Given(value) = handle.ask(LocalKey::new(key).init(5).request)?;
        handle.assert(value == 5)?;
    }
    Ok(())
}

/// Main adds 1 under the mutex, at each node of a run but the last one.
fn add_often<R: Wait>(handle: &mut Handle<u64, R>, mutex: &Mutex) -> Result<(), Stop> {
    for count in 0..LOCKS {
        let (guard, value) = handle.lock(mutex)?;
        handle.assert(value == count)?;
        handle.release(guard, count + 1)?;
    }
    Ok(())
}

#[test]
fn main_is_told_as_much_as_may_be(rt: HostRuntime) -> Result<(), Fail> {
    let report = model(&rt, rt.alloc(), |handle: &mut Handle<u64, HostRuntime>| {
        make_values(handle)?;
        let mutex = handle.mutex(0)?;
        add_often(handle, &mutex)?;
        Ok(7)
    })?;
    holds(&rt, matches!(report, Report::Complete { runs: 1 }));
    Ok(())
}

/// A thread locks a mutex of its own.
fn lock_alone<R: Wait>(handle: &mut Handle<u64, R>) -> Result<u64, Stop> {
    let mutex = handle.mutex(3)?;
    let (guard, value) = handle.lock(&mutex)?;
    handle.release(guard, value)?;
    Ok(value)
}

/// Main and four threads, which have nothing in common, so that one run is made.
#[test]
fn five_threads_are_told_all(rt: HostRuntime) -> Result<(), Fail> {
    let report = model(&rt, rt.alloc(), |handle: &mut Handle<u64, HostRuntime>| {
        for _ in 1..5 {
            handle.spawn(|handle| lock_alone(handle))?;
        }
        lock_alone(handle)
    })?;
    holds(&rt, matches!(report, Report::Complete { runs: 1 }));
    Ok(())
}
