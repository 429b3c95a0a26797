//! Loom's `tests/smoke.rs`, `rwlock.rs` and `arc.rs`: a number that two threads count, a lock that is tried while it is held, and a
//! reference that is never dropped.
use crate::closures::carried::children::{Child, start};
use crate::closures::carried::{self, Test, are_found};
use crate::closures::finding::Wanted::{Complete, Fails};
use crate::closures::{NONE, ONE, SLOT_0, SLOT_1, TWO, ZERO};
use loom::FailureKind;
use loom::runner::{Handle, Host, Stop};
use loom::sync::atomic::AtomicU64;
use loom::sync::atomic::Ordering::{Acquire, Relaxed, Release};
use std::sync::Wait;
use std::test::Fail;

/// What main does.
#[derive(Clone, Copy)]
pub(crate) enum Scene {
    /// Two threads load a number, and store one more. Main finds that both have counted.
    BuggyInc,
    /// Tries to lock for writing what it has locked so.
    TryWritten,
    /// Makes a counted reference, and never drops it.
    Forget,
}

impl Scene {
    pub(super) fn play<R: Host>(self, handle: &mut Handle<u64, R>) -> Result<u64, Stop> {
        match self {
            Scene::BuggyInc => buggy_inc(handle),
            Scene::TryWritten => try_written(handle),
            Scene::Forget => {
                handle.arc(0)?;
                Ok(0)
            }
        }
    }
}

fn buggy_inc<R: Host>(handle: &mut Handle<u64, R>) -> Result<u64, Stop> {
    let number = handle.atomic(0u64)?;
    let first = start(handle, Child::LoadAndStore(number))?;
    let second = start(handle, Child::LoadAndStore(number))?;
    handle.join(&first)?;
    handle.join(&second)?;
    let total = handle.load(&number, Relaxed)?;
    handle.assert(total == 2)?;
    Ok(total)
}

pub(super) fn load_and_store<R: Wait>(
    handle: &mut Handle<u64, R>,
    number: &AtomicU64,
) -> Result<u64, Stop> {
    let current = handle.load(number, Acquire)?;
    handle.store(number, current.wrapping_add(1), Release)?;
    Ok(0)
}

fn try_written<R: Wait>(handle: &mut Handle<u64, R>) -> Result<u64, Stop> {
    let lock = handle.rw_lock(1)?;
    let (guard, value) = handle.write(&lock)?;
    let none = handle.try_write(&lock)?;
    handle.assert(none.is_none())?;
    handle.release_write(guard, value)?;
    Ok(0)
}

// A test of these, with its name and what its check finds.
macro_rules! test {
    ($name:ident, $scene:expr, $wanted:expr) => {
        Test {
            name: stringify!($name),
            scene: carried::Scene::Others($scene),
            wanted: $wanted,
        }
    };
}

static EACH: [Test; 3] = [
    test!(
        checks_fail,
        Scene::BuggyInc,
        Fails(
            FailureKind::Assertion,
            0,
            &[
                ONE, ONE, SLOT_0, ONE, ONE, ZERO, TWO, TWO, SLOT_0, TWO, TWO, ZERO, ZERO, SLOT_1
            ]
        )
    ),
    test!(rwlock_write_then_try_write, Scene::TryWritten, Complete(1)),
    test!(
        detect_mem_leak,
        Scene::Forget,
        Fails(FailureKind::LeakArc, 0, &[NONE])
    ),
];

#[test]
fn others(rt: HostRuntime) -> Result<(), Fail> {
    are_found(&rt, &EACH)
}
