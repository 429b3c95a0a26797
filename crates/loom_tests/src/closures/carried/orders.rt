//! Loom's `tests/atomic.rs`, `atomic_relaxed.rs`, `fence.rs`, `litmus.rs` and `spec.rs`: what loads may read, and where accesses are in
//! order.
use crate::closures::carried::children::{Child, start};
use crate::closures::carried::{self, Test, are_found, comes_to_each, is_found};
use crate::closures::finding::Wanted::{Complete, Fails};
use crate::closures::{ONE, SLOT_0, SLOT_1, ZERO};
use loom::FailureKind;
use loom::model::builder::Builder;
use loom::runner::{Handle, Host, Stop};
use loom::sync::atomic::Ordering::{self, Acquire, Relaxed, Release, SeqCst};
use loom::sync::atomic::{AtomicBool, AtomicU64};
use std::sync::Wait;
use std::test::Fail;

/// What main does.
#[derive(Clone, Copy)]
pub(crate) enum Scene {
    /// A thread that nobody joins asks for a lazy value after main's end.
    LazyShutdown,
    /// A thread loads without synchronizing what main stores.
    UnsyncLoad,
    /// A thread stores 1, and tells of it. Where main is told by this ordering, it loads the 1.
    CheckOrdering(Ordering),
    /// Two threads set one flag each, and one of them sees the other's behind fences.
    Fences,
    /// Each of two threads loads what the other stores, but never what comes of its own store.
    LoadBuffering,
    /// Each of two threads stores to one atomic, and loads from the other's. Answers 0 where neither loads what the other stores.
    StoreBuffering,
    /// Two threads set flags, and two wait for one each and look at the other. Answers how many see it.
    BothWays,
}

impl Scene {
    pub(super) fn play<R: Host>(self, handle: &mut Handle<u64, R>) -> Result<u64, Stop> {
        match self {
            Scene::LazyShutdown => lazy_shutdown(handle),
            Scene::UnsyncLoad => unsync_load(handle),
            Scene::CheckOrdering(told) => check_ordering(handle, told),
            Scene::Fences => fences(handle),
            Scene::LoadBuffering => load_buffering(handle),
            Scene::StoreBuffering => store_buffering(handle),
            Scene::BothWays => look_both_ways(handle),
        }
    }
}

fn lazy_shutdown<R: Host>(handle: &mut Handle<u64, R>) -> Result<u64, Stop> {
    start(handle, Child::Lazy)?;
    Ok(0)
}

fn unsync_load<R: Host>(handle: &mut Handle<u64, R>) -> Result<u64, Stop> {
    let number = handle.atomic(0u64)?;
    let child = start(handle, Child::UnsyncLoad(number))?;
    handle.store(&number, 1, Relaxed)?;
    handle.join(&child)
}

fn check_ordering<R: Host>(handle: &mut Handle<u64, R>, told: Ordering) -> Result<u64, Stop> {
    let value = handle.atomic(0u64)?;
    let flag = handle.atomic(0u64)?;
    start(handle, Child::Publish(value, flag))?;
    if handle.load(&flag, told)? == 1 {
        let seen = handle.load(&value, Relaxed)?;
        handle.assert(seen == 1)?;
    }
    Ok(0)
}

pub(super) fn publish<R: Wait>(
    handle: &mut Handle<u64, R>,
    value: &AtomicU64,
    flag: &AtomicU64,
) -> Result<u64, Stop> {
    handle.store(value, 1, Relaxed)?;
    handle.store(flag, 1, Release)?;
    Ok(0)
}

fn fences<R: Host>(handle: &mut Handle<u64, R>) -> Result<u64, Stop> {
    let x = handle.atomic(false)?;
    let y = handle.atomic(false)?;
    let child = start(handle, Child::SetAndLook(x, y))?;
    let mine = set_and_look(handle, &y, &x)?;
    let theirs = handle.join(&child)?;
    handle.assert(mine == 1 || theirs == 1)?;
    Ok(mine)
}

/// Sets the one, and answers whether the other one is set, behind a fence.
pub(super) fn set_and_look<R: Wait>(
    handle: &mut Handle<u64, R>,
    mine: &AtomicBool,
    other: &AtomicBool,
) -> Result<u64, Stop> {
    handle.store(mine, true, Relaxed)?;
    handle.fence(SeqCst)?;
    Ok(u64::from(handle.load(other, Relaxed)?))
}

fn load_buffering<R: Host>(handle: &mut Handle<u64, R>) -> Result<u64, Stop> {
    let x = handle.atomic(0u64)?;
    let y = handle.atomic(0u64)?;
    let child = start(handle, Child::Copy(y, x))?;
    let read = handle.load(&x, Relaxed)?;
    handle.store(&y, 1, Relaxed)?;
    handle.join(&child)?;
    handle.assert(read != 1)?;
    Ok(read)
}

/// Stores into the one what it loads from the other.
pub(super) fn copy<R: Wait>(
    handle: &mut Handle<u64, R>,
    from: &AtomicU64,
    to: &AtomicU64,
) -> Result<u64, Stop> {
    let read = handle.load(from, Relaxed)?;
    handle.store(to, read, Relaxed)?;
    Ok(0)
}

fn store_buffering<R: Host>(handle: &mut Handle<u64, R>) -> Result<u64, Stop> {
    let x = handle.atomic(0u64)?;
    let y = handle.atomic(0u64)?;
    let child = start(handle, Child::StoreAndLoad(x, y))?;
    let mine = store_and_load(handle, &y, &x)?;
    let theirs = handle.join(&child)?;
    Ok(theirs | mine)
}

/// Stores 1 to the one, and loads from the other.
pub(super) fn store_and_load<R: Wait>(
    handle: &mut Handle<u64, R>,
    mine: &AtomicU64,
    theirs: &AtomicU64,
) -> Result<u64, Stop> {
    handle.store(mine, 1, Relaxed)?;
    handle.load(theirs, Relaxed)
}

/// Threads tell main by their results what in loom's test they add to a third atomic, as in the row of this name.
fn look_both_ways<R: Host>(handle: &mut Handle<u64, R>) -> Result<u64, Stop> {
    let x = handle.atomic(false)?;
    let y = handle.atomic(false)?;
    start(handle, Child::Set(y))?;
    let one = start(handle, Child::WaitAndLook(x, y))?;
    let other = start(handle, Child::WaitAndLook(y, x))?;
    set(handle, &x)?;
    let first = handle.join(&one)?;
    let second = handle.join(&other)?;
    Ok(first.wrapping_add(second))
}

pub(super) fn set<R: Wait>(handle: &mut Handle<u64, R>, flag: &AtomicBool) -> Result<u64, Stop> {
    handle.store(flag, true, Release)?;
    Ok(0)
}

/// Waits until the one is set, and answers whether the other one is set then.
pub(super) fn wait_and_look<R: Wait>(
    handle: &mut Handle<u64, R>,
    one: &AtomicBool,
    other: &AtomicBool,
) -> Result<u64, Stop> {
    handle.until(|handle| handle.load(one, Acquire))?;
    Ok(u64::from(handle.load(other, Acquire)?))
}

// A test of orders, with its name and what its check finds.
macro_rules! test {
    ($name:ident, $scene:expr, $wanted:expr) => {
        Test {
            name: stringify!($name),
            scene: carried::Scene::Orders($scene),
            wanted: $wanted,
        }
    };
}

pub(super) static VALID: Test = test!(
    check_ordering_valid,
    Scene::CheckOrdering(Acquire),
    Complete(4)
);

pub(super) static FENCES: Test = test!(sb_fences, Scene::Fences, Complete(15));

// Loom doesn't find the run in which main loads 1, and ignores its `load_buffering`.
static EACH: [Test; 4] = [
    test!(
        lazy_static_arc_shutdown,
        Scene::LazyShutdown,
        Fails(FailureKind::LazyShutdown, 0, &[ONE])
    ),
    test!(
        invalid_unsync_load_relaxed,
        Scene::UnsyncLoad,
        Fails(FailureKind::Race, 0, &[ZERO, ONE])
    ),
    test!(
        check_ordering_invalid_1,
        Scene::CheckOrdering(Relaxed),
        Fails(
            FailureKind::Assertion,
            2,
            &[ONE, ONE, ONE, ONE, ZERO, SLOT_1, ZERO, SLOT_0]
        )
    ),
    test!(load_buffering, Scene::LoadBuffering, Complete(15)),
];

static STORE_BUFFERING: Test = test!(store_buffering, Scene::StoreBuffering, Complete(30));

static ACQ_REL: Test = test!(acq_rel, Scene::BothWays, Complete(412));

#[test]
fn orders(rt: HostRuntime) -> Result<(), Fail> {
    is_found(&rt, &VALID)?;
    is_found(&rt, &FENCES)?;
    are_found(&rt, &EACH)
}

/// In some run neither thread loads what the other stores.
#[test]
fn store_buffering_is_seen(rt: HostRuntime) -> Result<(), Fail> {
    comes_to_each(&rt, &Builder::new(), &STORE_BUFFERING, &[0])
}

/// With one preemption, as in loom's test, each of 0, 1 and 2 is seen.
#[test]
fn acq_rel(rt: HostRuntime) -> Result<(), Fail> {
    let builder = Builder {
        preemption_bound: Some(1),
        ..Builder::new()
    };
    comes_to_each(&rt, &builder, &ACQ_REL, &[0, 1, 2])
}
