//! The worked test of docs/PORTING.md: a spin lock of one's own, which loom's users would test with `cfg(loom)`.
use loom::FailureKind;
use loom::cell::UnsafeCell;
use loom::model::Report;
use loom::runner::{Handle, Host, RunnerError, Stop, model};
use loom::sync::atomic::AtomicBool;
use loom::sync::atomic::Ordering::{self, Acquire, Relaxed, Release};
use std::sync::Wait;
use std::test::Fail;

/// A number behind a spin lock. It is copied like a number, since its fields are handles.
#[derive(Clone, Copy)]
struct SpinLock {
    is_locked: AtomicBool,
    number: UnsafeCell,
}

impl SpinLock {
    /// A lock that is free, around 0.
    fn new<R: Wait>(handle: &mut Handle<u64, R>) -> Result<SpinLock, Stop> {
        let is_locked = handle.atomic(false)?;
        let number = handle.unsafe_cell(0)?;
        Ok(SpinLock { is_locked, number })
    }

    /// Takes the lock, adds one, and frees the lock by this ordering.
    fn add_one<R: Wait>(&self, handle: &mut Handle<u64, R>, free: Ordering) -> Result<u64, Stop> {
        handle.until(|handle| {
            let taken = handle.compare_exchange(&self.is_locked, false, true, Acquire, Relaxed)?;
            Ok(taken.is_ok())
        })?;
        let before = handle.with_mut(&self.number, |number| {
            let before = *number;
            *number = before.wrapping_add(1);
            before
        })?;
        handle.store(&self.is_locked, false, free)?;
        Ok(before)
    }
}

/// Two threads add one each, and main finds both.
fn check_lock<R: Host>(rt: &R, free: Ordering) -> Result<Report, RunnerError> {
    model(rt, rt.alloc(), |handle: &mut Handle<u64, R>| {
        let lock = SpinLock::new(handle)?;
        let child = handle.spawn(move |handle| lock.add_one(handle, free))?;
        lock.add_one(handle, free)?;
        handle.join(&child)?;
        let total = handle.with(&lock.number, |number| *number)?;
        handle.assert(total == 2)?;
        Ok(total)
    })
}

#[test]
fn a_spin_lock_excludes(rt: HostRuntime) -> Result<(), Fail> {
    let report = check_lock(&rt, Release)?;
    assert!(rt; report.is_complete(), "{report}");
    Ok(())
}

#[test]
fn a_relaxed_spin_lock_races(rt: HostRuntime) -> Result<(), Fail> {
    let report = check_lock(&rt, Relaxed)?;
    assert!(rt;
        matches!(&report, Report::Failed { failure, .. } if failure.kind == FailureKind::Race),
        "{report}"
    );
    Ok(())
}
