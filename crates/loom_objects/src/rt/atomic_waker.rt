//! Places for the waker of a future, with the lock round each (loom's `future/atomic_waker.rs`).
ghost use Rattle.std.specs.Borrow.{sem};
ghost use Rattle.loom_objects.specs.Scene.Lends.{lends_in_scene, lends_kind};
ghost use Rattle.loom_objects.specs.Scene.Lookup.{now_of, shown_of};
ghost use Rattle.loom_objects.specs.Scene.Lookup as lookup;
ghost use Rattle.loom_objects.specs.contracts.rt.atomic_waker.AtomicWaker as atomic_waker_row;
ghost use Rattle.std.specs.Prelude.{◌≡◌, IfOk, OnErr, true};
ghost use Rattle.loom_objects.specs.Scene.Stage.{Does, DoesIfOk};
ghost use Rattle.loom_objects.specs.Rules.Waker as rules;
ghost use Rattle.loom_objects.specs.Stages.Waker as stages;

use crate::operation::{AtomicWakerOp, Reply};
use crate::rt::kept::Kept;
use crate::rt::object::{Object, of_kind};
use crate::rt::run::{Entry, Passed};
use crate::rt::scene::Scene;
use crate::rt::stages::{answered, pend_next};
use crate::rt::thread::{AfterDrop, AfterWake, Taking, Task};
use crate::rt::waker::{some_wakers, waker_pends};
use loom_views::rt::failure::FailureKind;
use loom_views::same::Same;
use std::alloc::{AllocError, Global};

/// A place for a waker, and the lock round it (loom's `future/atomic_waker.rs`).
#[derive(Clone, Copy)]
pub struct AtomicWaker {
    /// The thread that holds the lock.
    pub holder: Option<u8>,
    /// The waker that is there, by the number of its count.
    pub waker: Option<usize>,
}

impl<D> Object<D> {
    /// The place for a waker that it is, to change. Misuse where it is none.
    fn as_atomic_waker_mut(&mut self) -> Result<&mut AtomicWaker, FailureKind>
        ensures* writes_back { sem 𝓛 (lends_kind D.row (atomic_waker_row.the_row) Object.AtomicWaker self.entry result) }
        ensures value { now_of result ≡ lookup.atomic_waker_in self.old }
    {
        of_kind!(self, AtomicWaker(place))
    }
}

impl<D: Drop> Scene<D> {
    /// The place for a waker of this number, to read. Misuse where there is none.
    pub fn atomic_waker(&self, number: usize) -> Result<&AtomicWaker, FailureKind>
        ensures { shown_of result ≡ lookup.atomic_waker_at number self.now.objects }
    {
        of_kind!(self.object(number)?, AtomicWaker(place))
    }

    /// The place for a waker of this number, to change. Misuse where there is none.
    #[tactic(auto, using(crate::proofs::Scene::Finding::object_kept))]
    pub fn atomic_waker_mut(&mut self, number: usize) -> Result<&mut AtomicWaker, FailureKind>
        ensures* writes_back { sem 𝓛 (lends_in_scene D.row (atomic_waker_row.the_row) Object.AtomicWaker self.entry number result) }
        ensures value { now_of result ≡ lookup.atomic_waker_at number self.old.objects }
    {
        self.object_mut(number)?.as_atomic_waker_mut()
    }
}

/// What an operation on a place for a waker does up to its branch point, or all of it. An error of the outer result only where
/// memory is refused (loom's `future/atomic_waker.rs`).
pub fn atomic_waker_begins<D: Drop>(
    scene: &mut Scene<D>,
    op: AtomicWakerOp,
) -> Result<Result<Entry<D>, FailureKind>, AllocError>
    ensures does { IfOk result (λ answer. Does (rules.atomic_waker_begins op) scene.old answer scene.new) }
    ensures growth { OnErr result (rules.atomic_waker_needs_memory op ≡ true) }
{
    match op {
        AtomicWakerOp::New => Ok(Ok(atomic_waker_new(scene)?)),
        AtomicWakerOp::Register(number, wakers) => Ok(register_begins(scene, number, wakers)),
        AtomicWakerOp::RegisterByRef(number, wakers) => {
            Ok(register_by_ref_begins(scene, number, wakers))
        }
        AtomicWakerOp::Wake(number) => Ok(take_begins(scene, Taking::Wake, number)),
        AtomicWakerOp::TakeWaker(number) => Ok(take_begins(scene, Taking::Answer, number)),
        AtomicWakerOp::Drop(number) => Ok(atomic_waker_drop(scene, number)),
    }
}

/// A place without a waker.
fn atomic_waker_new<D: Drop>(scene: &mut Scene<D>) -> Result<Entry<D>, AllocError>
    ensures { DoesIfOk rules.atomic_waker_new scene.old result scene.new }
{
    let place = AtomicWaker {
        holder: None,
        waker: None,
    };
    let number = scene.add(Object::AtomicWaker(place))?;
    Ok(Entry::Answered(Reply::AtomicWaker(number)))
}

/// The thread reaches a branch point, where it is to register the waker.
fn register_begins<D: Drop>(
    scene: &mut Scene<D>,
    number: usize,
    wakers: usize,
) -> Result<Entry<D>, FailureKind>
    ensures { Does (rules.register_begins number wakers) scene.old result scene.new }
{
    scene.atomic_waker(number)?;
    waker_pends(scene, Task::Register(number, wakers), wakers)
}

/// The thread reaches a branch point, where it is to clone the waker first.
fn register_by_ref_begins<D: Drop>(
    scene: &mut Scene<D>,
    number: usize,
    wakers: usize,
) -> Result<Entry<D>, FailureKind>
    ensures { Does (rules.register_by_ref_begins number wakers) scene.old result scene.new }
{
    scene.atomic_waker(number)?;
    waker_pends(scene, Task::CloneWaker(wakers, Some(number)), wakers)
}

/// The thread reaches a branch point, blocked while another one holds the lock.
fn take_begins<D: Drop>(
    scene: &mut Scene<D>,
    taking: Taking,
    number: usize,
) -> Result<Entry<D>, FailureKind>
    ensures { Does (rules.take_begins taking number) scene.old result scene.new }
{
    let is_held = scene.atomic_waker(number)?.holder.is_some();
    scene.pend(Task::TakeWaker(taking, number), is_held);
    Ok(Entry::AtBranch)
}

/// The waker of this number, if there is one.
fn waker_reply<D>(waker: Option<usize>) -> Reply<D>
    ensures { result ≡ rules.waker_reply waker }
{
    match waker {
        None => Reply::NoWaker,
        Some(number) => Reply::Waker(number),
    }
}

/// The waker that is left comes back.
fn atomic_waker_drop<D: Drop>(scene: &mut Scene<D>, number: usize) -> Result<Entry<D>, FailureKind>
    ensures { Does (rules.atomic_waker_drop number) scene.old result scene.new }
{
    let place = scene.atomic_waker_mut(number)?;
    let waker = place.waker;
    place.waker = None;
    Ok(Entry::Answered(waker_reply(waker)))
}

/// The active thread holds the lock of the place, which is now so but for that.
fn hold_place<D: Drop>(
    scene: &mut Scene<D>,
    number: usize,
    place: AtomicWaker,
) -> Result<(), FailureKind>
    ensures { Does (stages.holds number place) scene.old result scene.new }
{
    let active = scene.active();
    *scene.atomic_waker_mut(number)? = AtomicWaker {
        holder: Some(active),
        waker: place.waker,
    };
    scene.acquire(number);
    scene.block_pending(number);
    Ok(())
}

/// The lock of the place, which is now so but for that, is given free.
pub(crate) fn free_place<D: Drop>(
    scene: &mut Scene<D>,
    number: usize,
    place: AtomicWaker,
) -> Result<(), FailureKind>
    ensures { Does (stages.frees number place) scene.old result scene.new }
{
    *scene.atomic_waker_mut(number)? = AtomicWaker {
        holder: None,
        waker: place.waker,
    };
    scene.release(number);
    scene.wake_pending(number);
    Ok(())
}

/// The waker takes the place. Where another thread holds the lock it wakes and is dropped, and the active thread yields.
pub fn register<D: Drop>(
    scene: &mut Scene<D>,
    number: usize,
    wakers: usize,
) -> Result<Passed<D>, FailureKind>
    ensures { Does (rules.registers number wakers) scene.old result scene.new }
{
    let place = *scene.atomic_waker(number)?;
    let own = some_wakers(scene, wakers)?;
    if place.holder.is_some() {
        let after = AfterWake::Drop(AfterDrop::Yield);
        return Ok(pend_next(scene, Task::WakeBy(own.notifier, wakers, after)));
    }
    take_place(scene, number, wakers, place)
}

/// The waker takes the place, under the lock. An old waker is to be dropped before the lock is given free.
fn take_place<D: Drop>(
    scene: &mut Scene<D>,
    number: usize,
    wakers: usize,
    place: AtomicWaker,
) -> Result<Passed<D>, FailureKind>
    ensures { Does (stages.takes_place number wakers place) scene.old result scene.new }
{
    let taken = AtomicWaker {
        holder: place.holder,
        waker: Some(wakers),
    };
    match place.waker {
        None => {
            hold_place(scene, number, place)?;
            free_place(scene, number, taken)?;
            Ok(answered(scene, Reply::Done))
        }
        Some(old) => {
            hold_place(scene, number, taken)?;
            Ok(pend_next(scene, Task::DropWaker(old, AfterDrop::Free(number))))
        }
    }
}

/// The waker is taken out of its place, under the lock. `Misuse` where a thread holds that.
pub fn take_waker<D: Drop>(
    scene: &mut Scene<D>,
    taking: Taking,
    number: usize,
) -> Result<Passed<D>, FailureKind>
    ensures { Does (rules.takes_waker taking number) scene.old result scene.new }
{
    let place = *scene.atomic_waker(number)?;
    if place.holder.is_some() {
        return Err(FailureKind::Misuse);
    }
    hold_place(scene, number, place)?;
    let emptied = AtomicWaker {
        holder: place.holder,
        waker: None,
    };
    free_place(scene, number, emptied)?;
    has_taken(scene, taking, place.waker)
}

/// What the active thread does with the waker that it has taken out. That one is left is tested when it wakes.
fn has_taken<D: Drop>(
    scene: &mut Scene<D>,
    taking: Taking,
    waker: Option<usize>,
) -> Result<Passed<D>, FailureKind>
    ensures { Does (rules.has_taken taking waker) scene.old result scene.new }
{
    match (taking, waker) {
        (Taking::Answer, waker) => Ok(answered(scene, waker_reply(waker))),
        (Taking::Wake, None) => Ok(answered(scene, Reply::Done)),
        (Taking::Wake, Some(number)) => {
            let notifier = scene.wakers(number)?.notifier;
            let after = AfterWake::Drop(AfterDrop::Done);
            Ok(pend_next(scene, Task::WakeBy(notifier, number, after)))
        }
    }
}

impl Kept for AtomicWaker {
    fn copied(&self, _alloc: Global) -> Result<AtomicWaker, AllocError> {
        Ok(*self)
    }

    fn is_equal(&self, other: &AtomicWaker) -> bool {
        self.holder.is_same(&other.holder) && self.waker.is_same(&other.waker)
    }
}
