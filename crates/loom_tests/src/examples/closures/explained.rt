//! Explanations of runs of closures, with their data: whole texts.
use crate::asserting::same;
use crate::closures::holds;
use crate::examples::closures::{Count, texts};
use crate::page::Page;
use loom::choices::Choices;
use loom::model::builder::Builder;
use loom::runner::{Handle, Incomplete, RunnerError, Stop, expect_complete, explain};
use loom::sync::Mutex;
use loom::sync::atomic::Ordering::{Acquire, Relaxed, Release};
use loom::sync::atomic::{AtomicI32, AtomicU64};
use loom::thread::JoinHandle;
use loom_ops::cell::Cell;
use std::process::Abort;
use std::sync::Wait;
use std::test::Fail;
use std::thread::Threads;

/// What main does.
#[derive(Clone, Copy)]
enum Scene {
    Race,
    Deadlock,
    Assertion,
    Leak,
    Misuse,
}

impl Scene {
    /// The choices of the run, and its explanation.
    fn told(self) -> (&'static str, &'static str) {
        match self {
            Scene::Race => ("t0 t1 t1 l1", texts::closures_race::TEXT),
            Scene::Deadlock => ("t0 t1 t1", texts::closures_deadlock::TEXT),
            Scene::Assertion => ("t0 l0 t1 t1 l0 t1 t1 t0", texts::closures_assertion::TEXT),
            Scene::Leak => ("", texts::closures_leak::TEXT),
            Scene::Misuse => ("", texts::closures_misuse::TEXT),
        }
    }

    fn play<R: Threads + Wait + Clone + Send + 'static>(
        self,
        handle: &mut Handle<u64, R>,
    ) -> Result<u64, Stop> {
        match self {
            Scene::Race => race(handle),
            Scene::Deadlock => deadlock(handle),
            Scene::Assertion => lost_update(handle),
            Scene::Leak => leak(handle),
            Scene::Misuse => misuse(handle),
        }
    }
}

/// What a thread does that main starts.
#[derive(Clone, Copy)]
enum Child {
    /// Sees that something was written, by an atomic that released nothing, and reads it.
    Reads(AtomicI32, Cell),
    /// Locks the one, and then the other.
    Locks(Mutex, Mutex),
    /// Adds one by a load and a store.
    Adds(AtomicU64),
}

impl Child {
    fn play<R: Wait>(self, handle: &mut Handle<u64, R>) -> Result<u64, Stop> {
        match self {
            Child::Reads(flag, count) => {
                handle.fetch_add(&flag, 1, Acquire)?;
                handle.copied(&count)
            }
            Child::Locks(one, other) => lock_both(handle, &one, &other),
            Child::Adds(count) => add_one(handle, &count),
        }
    }
}

fn start<R: Threads + Wait + Clone + Send + 'static>(
    handle: &mut Handle<u64, R>,
    child: Child,
) -> Result<JoinHandle, Stop> {
    handle.spawn(move |handle| child.play(handle))
}

/// A cell is written, and what tells of it releases nothing.
fn race<R: Threads + Wait + Clone + Send + 'static>(
    handle: &mut Handle<u64, R>,
) -> Result<u64, Stop> {
    let flag = handle.named("flag").atomic(0i32)?;
    let count = handle.named("count").unsafe_cell(0)?;
    let alone = Cell {
        number: count.number,
    };
    start(handle, Child::Reads(flag, alone))?;
    handle
        .at("spin.rs", 87)
        .with_mut(&count, |value| *value = 1)?;
    handle.store(&flag, -1, Relaxed)?;
    handle.yield_now()?;
    Ok(0)
}

/// Two threads lock two mutexes in opposite order.
fn deadlock<R: Threads + Wait + Clone + Send + 'static>(
    handle: &mut Handle<u64, R>,
) -> Result<u64, Stop> {
    let left = handle.named("left").mutex(0)?;
    let right = handle.named("right").mutex(0)?;
    let child = start(handle, Child::Locks(right, left))?;
    lock_both(handle, &left, &right)?;
    handle.join(&child)
}

fn lock_both<R: Wait>(
    handle: &mut Handle<u64, R>,
    one: &Mutex,
    other: &Mutex,
) -> Result<u64, Stop> {
    let (outer, first) = handle.lock(one)?;
    let (inner, second) = handle.lock(other)?;
    handle.release(inner, second)?;
    handle.release(outer, first)?;
    Ok(0)
}

/// Two threads add one each, and one doesn't see what the other has added.
fn lost_update<R: Threads + Wait + Clone + Send + 'static>(
    handle: &mut Handle<u64, R>,
) -> Result<u64, Stop> {
    let count = handle.named("count").atomic(0u64)?;
    let child = start(handle, Child::Adds(count))?;
    add_one(handle, &count)?;
    handle.join(&child)?;
    let total = handle.load(&count, Acquire)?;
    handle.named("the count is 2").assert(total == 2)?;
    Ok(total)
}

fn add_one<R: Wait>(handle: &mut Handle<u64, R>, count: &AtomicU64) -> Result<u64, Stop> {
    let found = handle.load(count, Acquire)?;
    handle.store(count, found.wrapping_add(1), Release)?;
    Ok(found)
}

/// A reference is left behind.
fn leak<R: Wait>(handle: &mut Handle<u64, R>) -> Result<u64, Stop> {
    let shared = handle.named("shared").arc(5)?;
    let other = handle.clone_arc(&shared)?;
    handle.drop_arc(other)?;
    Ok(0)
}

/// A mutex is taken apart, and then locked.
fn misuse<R: Wait>(handle: &mut Handle<u64, R>) -> Result<u64, Stop> {
    let state = handle.named("state").mutex(0)?;
    handle.call(state.into_inner().request)?.let_go();
    handle.lock(&state)?;
    Ok(0)
}

/// The explanation of the scene's run is its text.
fn is_told<R: Abort + AllocGlobal + Threads + Wait + Clone + Send + 'static>(
    rt: &R,
    scene: Scene,
) -> Result<(), Fail> {
    let (choices, text) = scene.told();
    let choices = Choices::parse(rt.alloc(), choices)?;
    let main = |handle: &mut Handle<u64, R>| scene.play(handle);
    let told = explain(rt, rt.alloc(), &Builder::new(), choices.0.as_slice(), main)?;
    let mut page = Page::new(rt.alloc());
    page.add_shown(&told);
    same(rt, page.text.as_str(), text, "closures");
    Ok(())
}

#[test]
fn races_and_deadlocks_are_told(rt: HostRuntime) -> Result<(), Fail> {
    is_told(&rt, Scene::Race)?;
    is_told(&rt, Scene::Deadlock)
}

#[test]
fn assertions_leaks_and_misuse_are_told(rt: HostRuntime) -> Result<(), Fail> {
    is_told(&rt, Scene::Assertion)?;
    is_told(&rt, Scene::Leak)?;
    is_told(&rt, Scene::Misuse)
}

/// Data of one's own stand there as their type shows them, cut where they are long.
#[test]
fn own_data_are_told(rt: HostRuntime) -> Result<(), Fail> {
    let main = |handle: &mut Handle<Count, HostRuntime>| {
        handle.mutex(Count(7))?;
        Ok(Count(0))
    };
    let told = explain(&rt, rt.alloc(), &Builder::new(), &[], main)?;
    let made = "Mutex::new(7 counted,\\u{a}and more than…) = #0";
    holds(&rt, told.text.as_str().contains(made));
    Ok(())
}

/// A setting out of range is refused as a replay refuses it.
#[test]
fn settings_of_an_explanation_are_tested(rt: HostRuntime) {
    let builder = Builder {
        max_threads: 0,
        ..Builder::new()
    };
    let main = |handle: &mut Handle<u64, HostRuntime>| leak(handle);
    let told = explain(&rt, rt.alloc(), &builder, &[], main);
    holds(&rt, matches!(told, Err(RunnerError::Settings(_))));
}

/// A check that is to be complete answers its runs, or the report that it found.
#[test]
fn what_was_expected_is_answered(rt: HostRuntime) {
    let alone = |handle: &mut Handle<u64, HostRuntime>| lock_alone(handle);
    let runs = expect_complete(&rt, rt.alloc(), &Builder::new(), alone);
    holds(&rt, matches!(runs, Ok(1)));
    let crossed = |handle: &mut Handle<u64, HostRuntime>| deadlock(handle);
    let found = expect_complete(&rt, rt.alloc(), &Builder::new(), crossed);
    holds(&rt, matches!(found, Err(Incomplete::Found(_))));
}

fn lock_alone<R: Wait>(handle: &mut Handle<u64, R>) -> Result<u64, Stop> {
    let mutex = handle.mutex(3)?;
    handle.with_lock(&mutex, |value| *value)
}
