//! Each short form for tracked values, for values that are named by keys, and for wakers, in main and where it differs in a thread.
use crate::closures::children::{Task, start};
use crate::closures::finding::Wanted::Fails;
use crate::closures::finding::{Counter, Main, comes_to, passes};
use crate::closures::{NONE, ONE};
use loom::FailureKind;
use loom::future::AtomicWaker;
use loom::lazy_static::Lazy;
use loom::model::builder::Builder;
use loom::runner::{Handle, Host, Stop};
use loom::sync::atomic::AtomicBool;
use loom::sync::atomic::Ordering::{Acquire, Release};
use loom::thread::LocalKey;
use std::mem;
use std::sync::Wait;
use std::test::Fail;

/// One tracked value is changed and taken out, and another is dropped.
pub(super) fn tracks<R: Wait>(handle: &mut Handle<u64, R>) -> Result<u64, Stop> {
    let track = handle.track(1)?;
    let before = handle.get_mut_track(&track, |value| mem::replace(value, 2))?;
    let now = handle.get_ref(&track)?;
    let out = handle.into_inner_track(track)?;
    let other = handle.track(3)?;
    let dropped = handle.drop_track(other)?;
    handle.assert([before, now, out, dropped] == [1, 2, 2, 3])?;
    Ok(dropped)
}

/// A tracked value is left.
pub(super) fn track_left<R: Wait>(handle: &mut Handle<u64, R>) -> Result<u64, Stop> {
    let track = handle.track(1)?;
    handle.get_ref(&track)
}

/// The thread makes a value of its own of this one, and changes it.
fn use_local<R: Wait>(handle: &mut Handle<u64, R>, mine: u64) -> Result<(), Stop> {
    let key = LocalKey::new(3);
    let none = handle.get_local(&key)?;
    let made = handle.local(&key, || mine)?;
    let before = handle.put_local(&key, 9)?;
    let again = handle.local(&key, || mine)?;
    let tried = handle.try_local(&key)?;
    handle.assert(none.is_none() && [made, before, again] == [mine, mine, 9])?;
    handle.assert(matches!(tried, Ok(Some(9))))
}

/// The thread has a value of its own, and one that all threads share, which it makes of this one where it comes first.
pub(super) fn use_values<R: Wait>(handle: &mut Handle<u64, R>, mine: u64) -> Result<u64, Stop> {
    use_local(handle, mine)?;
    let first = handle.init_local(&LocalKey::new(5), 4)?;
    let lazy = Lazy::new(4);
    let shared = handle.lazy(&lazy, || mine)?;
    let again = handle.get_lazy(&lazy)?;
    let stands = handle.init_lazy(&lazy, 100)?;
    let is_shared = stands.value == shared && stands.spare == Some(100);
    handle.assert(first == 4 && again == Some(shared) && is_shared)?;
    Ok(shared)
}

/// Two threads have values of their own, and share one.
pub(super) fn values<R: Host>(handle: &mut Handle<u64, R>, counter: &Counter) -> Result<u64, Stop> {
    let child = start(handle, Task::Values, counter)?;
    let mine = use_values(handle, 1)?;
    let theirs = handle.join(&child)?;
    handle.assert(mine == theirs && (mine == 1 || mine == 5))?;
    Ok(mine)
}

/// Wakers are made, registered, taken out, woken and dropped by the thread that waits for them.
pub(super) fn wakers<R: Wait>(handle: &mut Handle<u64, R>) -> Result<u64, Stop> {
    let place = handle.atomic_waker()?;
    let future = handle.begin_future()?;
    let waker = future.waker();
    let second = handle.clone_waker(&waker)?;
    handle.register(&place, second)?;
    handle.register_by_ref(&place, &waker)?;
    let Some(taken) = handle.take_waker(&place)? else {
        return Err(handle.fail());
    };
    handle.wake_by_ref(&taken)?;
    handle.await_waker(&future)?;
    handle.wake(taken)?;
    handle.await_waker(&future)?;
    let none = handle.drop_atomic_waker(place)?;
    handle.assert(none.is_none())?;
    let last = handle.clone_waker(&waker)?;
    handle.drop_waker(last)?;
    handle.finish_future(&future)?;
    Ok(0)
}

/// A flag, and the place for the waker of who waits for it.
#[derive(Clone, Copy)]
pub(super) struct Gate {
    is_open: AtomicBool,
    place: AtomicWaker,
}

/// Main waits for a gate by a future, and a thread opens it.
pub(super) fn future<R: Host>(handle: &mut Handle<u64, R>, counter: &Counter) -> Result<u64, Stop> {
    let is_open = handle.atomic(false)?;
    let place = handle.atomic_waker()?;
    let gate = Gate { is_open, place };
    let child = start(handle, Task::Open(gate), counter)?;
    let polls = wait_for_gate(handle, &gate)?;
    let opened = handle.join(&child)?;
    if let Some(waker) = handle.drop_atomic_waker(place)? {
        handle.drop_waker(waker)?;
    }
    handle.assert(polls > 0 && opened == 6)?;
    Ok(polls)
}

/// Answers how often the future was polled.
fn wait_for_gate<R: Wait>(handle: &mut Handle<u64, R>, gate: &Gate) -> Result<u64, Stop> {
    let mut polls = 0u64;
    handle.block_on(|handle, waker| {
        polls = polls.wrapping_add(1);
        handle.register_by_ref(&gate.place, &waker)?;
        let is_open = handle.load(&gate.is_open, Acquire)?;
        Ok(if is_open { Some(polls) } else { None })
    })
}

/// Opens the gate, and wakes who waits for it.
pub(super) fn open_gate<R: Wait>(handle: &mut Handle<u64, R>, gate: &Gate) -> Result<u64, Stop> {
    handle.store(&gate.is_open, true, Release)?;
    handle.wake_registered(&gate.place)?;
    Ok(6)
}

#[test]
fn tracked_values(rt: HostRuntime) -> Result<(), Fail> {
    passes(&rt, Main::Tracks, 0)?;
    let choices = [NONE];
    let left = Fails(FailureKind::LeakTrack, 0, choices.as_slice());
    comes_to(&rt, &Builder::new(), Main::TrackLeft, left, 1, 0)
}

#[test]
fn values_that_are_named_by_keys(rt: HostRuntime) -> Result<(), Fail> {
    passes(&rt, Main::Values, 0)
}

#[test]
fn wakers_of_a_future(rt: HostRuntime) -> Result<(), Fail> {
    passes(&rt, Main::Wakers, 0)
}

/// Loom's `atomic_waker_valid`, with one thread that wakes.
#[test]
fn a_future_is_driven(rt: HostRuntime) -> Result<(), Fail> {
    passes(&rt, Main::Future, 0)
}

/// Code that is never to be reached fails the run in each thread.
#[test]
fn unreachable_code(rt: HostRuntime) -> Result<(), Fail> {
    let (kind, choices) = (FailureKind::Unreachable, [ONE]);
    let (main, child) = (Main::Unreachable, Main::UnreachableInChild);
    comes_to(
        &rt,
        &Builder::new(),
        main,
        Fails(kind, 0, &choices[..0]),
        1,
        0,
    )?;
    comes_to(
        &rt,
        &Builder::new(),
        child,
        Fails(kind, 0, choices.as_slice()),
        1,
        0,
    )
}
