//! Wakers of a future, which are counted as references are (loom's `rt/waker.rs`).
ghost use Rattle.std.specs.Borrow.{sem};
ghost use Rattle.loom_objects.specs.Scene.Lends.{lends_in_scene, lends_kind};
ghost use Rattle.loom_objects.specs.Scene.Lookup.{now_of, shown_of};
ghost use Rattle.loom_objects.specs.Scene.Lookup as lookup;
ghost use Rattle.loom_objects.specs.contracts.rt.waker.Wakers as wakers_row;
ghost use Rattle.std.specs.Prelude.{◌≡◌, Ok, IfOk, OnErr, true};
ghost use Rattle.loom_objects.specs.Stages.Waker.{wakers_left};
ghost use Rattle.loom_objects.specs.Scene.Stage.{Does, DoesIfOk};
ghost use Rattle.loom_objects.specs.Rules.Waker as rules;
ghost use Rattle.loom_objects.specs.Stages.Waker as stages;

use crate::operation::{Reply, WakerOp};
use crate::rt::atomic_waker::free_place;
use crate::rt::kept::Kept;
use crate::rt::notify::{Notify, Spurious, notify_waiter, wait_begins};
use crate::rt::object::{Object, of_kind};
use crate::rt::run::{Entry, Passed};
use crate::rt::scene::Scene;
use crate::rt::stages::{answered, pend_next};
use crate::rt::thread::{AfterDrop, AfterWake, Task};
use loom_views::rt::failure::FailureKind;
use std::alloc::{AllocError, Global};

/// How many wakers of a future there are (loom's `future/mod.rs`, where an `Arc` counts them).
#[derive(Clone, Copy)]
pub struct Wakers {
    /// The number of the notifier by which they wake.
    pub notifier: usize,
    /// How many there are, the future's own one included.
    pub count: u64,
}

impl<D> Object<D> {
    /// The count of wakers that it is, to change. Misuse where it is none.
    fn as_wakers_mut(&mut self) -> Result<&mut Wakers, FailureKind>
        ensures* writes_back { sem 𝓛 (lends_kind D.row (wakers_row.the_row) Object.Wakers self.entry result) }
        ensures value { now_of result ≡ lookup.wakers_in self.old }
    {
        of_kind!(self, Wakers(wakers))
    }
}

impl<D: Drop> Scene<D> {
    /// The count of wakers of this number, to read. Misuse where there is none.
    pub fn wakers(&self, number: usize) -> Result<&Wakers, FailureKind>
        ensures { shown_of result ≡ lookup.wakers_at number self.now.objects }
    {
        of_kind!(self.object(number)?, Wakers(wakers))
    }

    /// The count of wakers of this number, to change. Misuse where there is none.
    #[tactic(auto, using(crate::proofs::Scene::Finding::object_kept))]
    pub fn wakers_mut(&mut self, number: usize) -> Result<&mut Wakers, FailureKind>
        ensures* writes_back { sem 𝓛 (lends_in_scene D.row (wakers_row.the_row) Object.Wakers self.entry number result) }
        ensures value { now_of result ≡ lookup.wakers_at number self.old.objects }
    {
        self.object_mut(number)?.as_wakers_mut()
    }
}

/// The wakers of this number. `Misuse` where there are none.
pub fn some_wakers<D: Drop>(scene: &Scene<D>, number: usize) -> Result<Wakers, FailureKind>
    ensures { result ≡ wakers_left number scene.now.objects }
{
    let wakers = *scene.wakers(number)?;
    if wakers.count == 0 {
        return Err(FailureKind::Misuse);
    }
    Ok(wakers)
}

/// A waker wakes: the active thread notifies its notifier, and then may drop the waker.
pub fn wake_by<D: Drop>(
    scene: &mut Scene<D>,
    notifier: usize,
    number: usize,
    after: AfterWake,
) -> Result<Passed<D>, FailureKind>
    ensures { Does (rules.wakes_by notifier number after) scene.old result scene.new }
{
    some_wakers(scene, number)?;
    notify_waiter(scene, notifier)?;
    Ok(after_wake(scene, after, number))
}

/// What follows once a waker has notified.
fn after_wake<D: Drop>(scene: &mut Scene<D>, after: AfterWake, number: usize) -> Passed<D>
    ensures { Does (rules.after_wake after number) scene.old (Ok result) scene.new }
{
    match after {
        AfterWake::Done => answered(scene, Reply::Done),
        AfterWake::Drop(after) => pend_next(scene, Task::DropWaker(number, after)),
    }
}

/// What an operation on a future's notifier or on a waker of it does up to its branch point, or all of it; a wait may come to the
/// question whether the thread wakes without a notification first. An error of the outer result only where memory is refused
/// (loom's `future/mod.rs`).
pub fn waker_begins<D: Drop>(
    scene: &mut Scene<D>,
    op: WakerOp,
) -> Result<Result<Entry<D>, FailureKind>, AllocError>
    ensures does { IfOk result (λ answer. Does (rules.waker_begins op) scene.old answer scene.new) }
    ensures growth { OnErr result (rules.waker_needs_memory op ≡ true) }
{
    match op {
        WakerOp::New => Ok(Ok(block_on_new(scene)?)),
        WakerOp::Wait(number) => Ok(block_on_wait(scene, number)),
        WakerOp::Finish(number) => Ok(drop_begins(scene, number)),
        WakerOp::Clone(number) => { Ok(waker_pends(scene, Task::CloneWaker(number, None), number)) }
        WakerOp::Wake(number) => {
            Ok(wake_begins(scene, AfterWake::Drop(AfterDrop::Done), number))
        }
        WakerOp::WakeByRef(number) => Ok(wake_begins(scene, AfterWake::Done, number)),
        WakerOp::Drop(number) => Ok(drop_begins(scene, number)),
    }
}

/// A notifier, and after it the count of its wakers, of which there is one.
fn block_on_new<D: Drop>(scene: &mut Scene<D>) -> Result<Entry<D>, AllocError>
    ensures { DoesIfOk rules.block_on_new scene.old result scene.new }
{
    let Some(number) = scene.object_count().checked_add(1) else {
        return Err(AllocError);
    };
    let notifier = scene.add(Object::Notify(Notify {
        notified: false,
        waiter: None,
        spurious: Spurious::NotYet,
        wakers: Some(number),
    }))?;
    scene.add(Object::Wakers(Wakers { notifier, count: 1 }))?;
    Ok(Entry::Answered(Reply::BlockOn(number)))
}

/// The thread waits for the notifier.
fn block_on_wait<D: Drop>(scene: &mut Scene<D>, number: usize) -> Result<Entry<D>, FailureKind>
    ensures { Does (rules.block_on_wait number) scene.old result scene.new }
{
    let wakers = some_wakers(scene, number)?;
    wait_begins(scene, wakers.notifier)
}

/// The thread reaches a branch point, where it is to do this with a waker.
pub(crate) fn waker_pends<D: Drop>(
    scene: &mut Scene<D>,
    todo: Task<D>,
    number: usize,
) -> Result<Entry<D>, FailureKind>
    ensures { Does (rules.waker_pends todo number) scene.old result scene.new }
{
    some_wakers(scene, number)?;
    scene.pend(todo, false);
    Ok(Entry::AtBranch)
}

/// The thread reaches a branch point, where it is to drop a waker.
fn drop_begins<D: Drop>(scene: &mut Scene<D>, number: usize) -> Result<Entry<D>, FailureKind>
    ensures { Does (rules.waker_pends (Task.DropWaker number AfterDrop.Done) number) scene.old result scene.new }
{
    waker_pends(scene, Task::DropWaker(number, AfterDrop::Done), number)
}

/// The thread reaches a branch point, where it is to notify by a waker.
fn wake_begins<D: Drop>(
    scene: &mut Scene<D>,
    after: AfterWake,
    number: usize,
) -> Result<Entry<D>, FailureKind>
    ensures { Does (rules.wake_begins after number) scene.old result scene.new }
{
    let wakers = some_wakers(scene, number)?;
    scene.pend(Task::WakeBy(wakers.notifier, number, after), false);
    Ok(Entry::AtBranch)
}

/// One waker more, which then may be registered. `TooManySteps` where there are 2^64 - 1.
pub fn clone_waker<D: Drop>(
    scene: &mut Scene<D>,
    number: usize,
    place: Option<usize>,
) -> Result<Passed<D>, FailureKind>
    ensures { Does (rules.clones_waker number place) scene.old result scene.new }
{
    let wakers = scene.wakers_mut(number)?;
    if wakers.count == 0 {
        return Err(FailureKind::Misuse);
    }
    if wakers.count == u64::MAX {
        return Err(FailureKind::TooManySteps);
    }
    wakers.count += 1;
    Ok(after_clone(scene, place, number))
}

/// What follows once a waker was cloned.
fn after_clone<D: Drop>(scene: &mut Scene<D>, place: Option<usize>, number: usize) -> Passed<D>
    ensures { Does (rules.after_clone place number) scene.old (Ok result) scene.new }
{
    match place {
        None => answered(scene, Reply::Done),
        Some(place) => pend_next(scene, Task::Register(place, number)),
    }
}

/// One waker fewer, to whose count the active thread releases; who drops the last one acquires.
pub fn drop_waker<D: Drop>(
    scene: &mut Scene<D>,
    number: usize,
    after: AfterDrop,
) -> Result<Passed<D>, FailureKind>
    ensures { Does (rules.drops_waker number after) scene.old result scene.new }
{
    forget(scene, number)?;
    after_drop(scene, after)
}

/// The count is one less, and the active thread releases to it; with the last waker it acquires.
fn forget<D: Drop>(scene: &mut Scene<D>, number: usize) -> Result<(), FailureKind>
    ensures { Does (stages.forgets number) scene.old result scene.new }
{
    let wakers = scene.wakers_mut(number)?;
    if wakers.count == 0 {
        return Err(FailureKind::Misuse);
    }
    let is_last = wakers.count == 1;
    wakers.count -= 1;
    scene.release(number);
    if is_last {
        scene.acquire(number);
    }
    Ok(())
}

/// What follows once a waker was dropped.
fn after_drop<D: Drop>(scene: &mut Scene<D>, after: AfterDrop) -> Result<Passed<D>, FailureKind>
    ensures { Does (rules.after_drop after) scene.old result scene.new }
{
    match after {
        AfterDrop::Done => Ok(answered(scene, Reply::Done)),
        AfterDrop::Yield => {
            scene.yield_by(Task::Continue)?;
            Ok(Passed::AtBranch)
        }
        AfterDrop::Free(number) => {
            let place = *scene.atomic_waker(number)?;
            free_place(scene, number, place)?;
            Ok(answered(scene, Reply::Done))
        }
    }
}

impl Kept for Wakers {
    fn copied(&self, _alloc: Global) -> Result<Wakers, AllocError> {
        Ok(*self)
    }

    fn is_equal(&self, other: &Wakers) -> bool {
        self.notifier == other.notifier && self.count == other.count
    }
}
