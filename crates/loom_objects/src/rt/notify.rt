//! Notifiers, on which threads wait, and by which `join` and `block_on` do (loom's `rt/notify.rs`).
ghost use Rattle.std.specs.Borrow.{sem};
ghost use Rattle.loom_objects.specs.Scene.Lends.{lends_in_scene, lends_kind};
ghost use Rattle.loom_objects.specs.Scene.Lookup.{now_of, shown_of};
ghost use Rattle.loom_objects.specs.Scene.Lookup as lookup;
ghost use Rattle.loom_objects.specs.contracts.rt.notify.Notify as notify_row;
ghost use Rattle.std.specs.Prelude.{◌≡◌, IfOk, OnErr, true, IsTrue};
ghost use Rattle.loom_objects.specs.Rules.Notify as rules;
ghost use Rattle.loom_objects.specs.Scene.Stage.{Does, DoesIfOk};
ghost use Rattle.loom_objects.specs.Stages.Waker as stages;

use crate::operation::{NotifyOp, Reply};
use crate::rt::kept::Kept;
use crate::rt::object::{Object, of_kind};
use crate::rt::run::Entry;
use crate::rt::scene::Scene;
use crate::rt::thread::Task;
use crate::rt::waker::some_wakers;
use loom_views::is_kind;
use loom_views::rt::failure::FailureKind;
use loom_views::same::Same;
use std::alloc::{AllocError, Global};

/// Whether a thread has woken from a notifier without a notification (loom's `rt/notify.rs`).
#[derive(Clone, Copy)]
pub enum Spurious {
    /// None does: it is a notifier that a `join` waits on.
    Never,
    /// None has, and one may.
    NotYet,
    /// This one has, and hasn't its reply yet.
    Waking(u8),
    /// One has, and no other does in this run.
    Over,
}

/// A notifier, on which one thread waits at a time (loom's `rt/notify.rs`).
#[derive(Clone, Copy)]
pub struct Notify {
    /// Whether it was notified since a thread last waited.
    pub notified: bool,
    /// The thread that waits on it for a notification, or has joined by it.
    pub waiter: Option<u8>,
    /// Whether a thread has woken without one.
    pub spurious: Spurious,
    /// The number of the count of a future's wakers, where it is the future's notifier.
    pub wakers: Option<usize>,
}

impl Notify {
    /// Bodies wait on it; a `join` doesn't.
    pub fn is_for_waits(self) -> bool
        ensures { result ≡ rules.is_for_waits self.spurious }
    {
        !matches!(self.spurious, Spurious::Never)
    }

    /// A thread may wake from it without a notification.
    pub fn may_be_spurious(self) -> bool
        ensures { result ≡ rules.may_be_spurious self.spurious }
    {
        matches!(self.spurious, Spurious::NotYet)
    }

    /// No thread but this one is inside a wait on it.
    pub fn is_alone(self, thread: u8) -> bool
        ensures { result ≡ rules.is_alone thread self }
    {
        let is_awaited = match self.waiter {
            Some(waiter) => waiter != thread,
            None => false,
        };
        let is_left = match self.spurious {
            Spurious::Waking(waker) => waker != thread,
            _ => false,
        };
        !is_awaited && !is_left
    }
}

impl<D> Object<D> {
    /// The notifier that it is, to change. Misuse where it is none.
    fn as_notify_mut(&mut self) -> Result<&mut Notify, FailureKind>
        ensures* writes_back { sem 𝓛 (lends_kind D.row (notify_row.the_row) Object.Notify self.entry result) }
        ensures value { now_of result ≡ lookup.notify_in self.old }
    {
        of_kind!(self, Notify(notify))
    }
}

impl<D: Drop> Scene<D> {
    /// The notifier of this number, to read. Misuse where there is none.
    pub fn notify(&self, number: usize) -> Result<&Notify, FailureKind>
        ensures { shown_of result ≡ lookup.notify_at number self.now.objects }
    {
        of_kind!(self.object(number)?, Notify(notify))
    }

    /// The notifier of this number, to change. Misuse where there is none.
    #[tactic(auto, using(crate::proofs::Scene::Finding::object_kept))]
    pub fn notify_mut(&mut self, number: usize) -> Result<&mut Notify, FailureKind>
        ensures* writes_back { sem 𝓛 (lends_in_scene D.row (notify_row.the_row) Object.Notify self.entry number result) }
        ensures value { now_of result ≡ lookup.notify_at number self.old.objects }
    {
        self.object_mut(number)?.as_notify_mut()
    }
}

/// The active thread releases and notifies: who waits takes in its view, and is woken. `Misuse` where there is no such notifier.
#[inline(always)]
pub fn notify_waiter<D: Drop>(scene: &mut Scene<D>, number: usize) -> Result<(), FailureKind>
    ensures { Does (rules.notify number) scene.old result scene.new }
{
    let notify = scene.notify_mut(number)?;
    notify.notified = true;
    let waiter = notify.waiter;
    scene.release(number);
    scene.join_waiters_view(waiter);
    scene.wake_pending(number);
    Ok(())
}

/// A future has a waker left. `Misuse` where it hasn't.
fn has_waker<D: Drop>(scene: &Scene<D>, wakers: Option<usize>) -> Result<(), FailureKind>
    ensures { result ≡ stages.has_waker wakers scene.now.objects }
{
    if let Some(number) = wakers {
        some_wakers(scene, number)?;
    }
    Ok(())
}

/// The active thread has woken without a notification, and no thread does so again.
pub fn wake_early<D: Drop>(scene: &mut Scene<D>, number: usize) -> Result<Reply<D>, FailureKind>
    ensures { Does (rules.wakes_early number) scene.old result scene.new }
{
    let wakers = scene.notify(number)?.wakers;
    has_waker(scene, wakers)?;
    scene.notify_mut(number)?.spurious = Spurious::Over;
    Ok(Reply::Done)
}

/// What an operation on a notifier does up to its branch point, or up to the question whether the thread wakes without a
/// notification. An error of the outer result only where memory is refused.
pub fn notify_begins<D: Drop>(
    scene: &mut Scene<D>,
    op: NotifyOp,
) -> Result<Result<Entry<D>, FailureKind>, AllocError>
    ensures does { IfOk result (λ answer. Does (rules.notify_begins op) scene.old answer scene.new) }
    ensures growth { OnErr result (rules.needs_memory op ≡ true) }
{
    match op {
        NotifyOp::New => Ok(Ok(notify_new(scene)?)),
        NotifyOp::Notify(number) => Ok(notify_one_begins(scene, number)),
        NotifyOp::Wait(number) => Ok(wait_begins(scene, number)),
    }
}

/// A notifier on which bodies wait.
fn notify_new<D: Drop>(scene: &mut Scene<D>) -> Result<Entry<D>, AllocError>
    ensures { DoesIfOk rules.notify_new scene.old result scene.new }
{
    let notify = Notify {
        notified: false,
        waiter: None,
        spurious: Spurious::NotYet,
        wakers: None,
    };
    let number = scene.add(Object::Notify(notify))?;
    Ok(Entry::Answered(Reply::Notify(number)))
}

fn notify_one_begins<D: Drop>(scene: &mut Scene<D>, number: usize) -> Result<Entry<D>, FailureKind>
    ensures { Does (rules.notify_one_begins number) scene.old result scene.new }
{
    let notify = scene.notify(number)?;
    if !notify.is_for_waits() {
        return Err(FailureKind::Misuse);
    }
    scene.pend(Task::Notify(number), false);
    Ok(Entry::AtBranch)
}

/// The thread reaches a branch point, blocked until it is notified; where it may wake without that, whether it does is to
/// be chosen first. `Misuse` where it is no notifier on which bodies wait, `SecondWaiter` where another thread is inside a wait.
pub fn wait_begins<D: Drop>(scene: &mut Scene<D>, number: usize) -> Result<Entry<D>, FailureKind>
    ensures { Does (rules.wait_begins number) scene.old result scene.new }
{
    let notify = scene.notify(number)?;
    if !notify.is_for_waits() {
        return Err(FailureKind::Misuse);
    }
    if !notify.is_alone(scene.active()) {
        return Err(FailureKind::SecondWaiter);
    }
    if notify.may_be_spurious() {
        return Ok(Entry::Spurious(number));
    }
    enter_wait(scene, false, number)?;
    Ok(Entry::AtBranch)
}

/// It is known now whether the active thread wakes from the notifier without a notification: then it yields, and else it
/// waits.
pub fn enter_wait<D: Drop>(
    scene: &mut Scene<D>,
    is_spurious: bool,
    number: usize,
) -> Result<(), FailureKind>
    ensures { Does (rules.enters_wait is_spurious number) scene.old result scene.new }
{
    let active = scene.active();
    let notify = scene.notify_mut(number)?;
    if is_spurious {
        notify.spurious = Spurious::Waking(active);
        return scene.yield_by(Task::Rouse(number));
    }
    notify.waiter = Some(active);
    let is_notified = notify.notified;
    scene.pend(Task::Await(number), !is_notified);
    Ok(())
}

/// The active thread releases and notifies, and is answered.
pub fn notify_one<D: Drop>(scene: &mut Scene<D>, number: usize) -> Result<Reply<D>, FailureKind>
    ensures { Does (rules.notifies number) scene.old result scene.new }
{
    notify_waiter(scene, number)?;
    Ok(Reply::Done)
}

/// The active thread was notified: it acquires, and waits no more.
pub fn await_notified<D: Drop>(scene: &mut Scene<D>, number: usize) -> Result<Reply<D>, FailureKind>
    ensures { Does (rules.awaits number) scene.old result scene.new }
{
    let wakers = scene.notify(number)?.wakers;
    has_waker(scene, wakers)?;
    let notify = scene.notify_mut(number)?;
    if !notify.notified {
        return Err(FailureKind::Misuse);
    }
    notify.notified = false;
    notify.waiter = None;
    scene.acquire(number);
    Ok(Reply::Done)
}

impl Kept for Notify {
    fn copied(&self, _alloc: Global) -> Result<Notify, AllocError> {
        Ok(*self)
    }

    fn is_equal(&self, other: &Notify) -> bool {
        self.notified == other.notified
            && self.waiter.is_same(&other.waiter)
            && is_spurious_equal(self.spurious, other.spurious)
            && self.wakers.is_same(&other.wakers)
    }
}

fn is_spurious_equal(one: Spurious, other: Spurious) -> bool
    ensures { IsTrue result → one ≡ other }
{
    match one {
        Spurious::Never => matches!(other, Spurious::Never),
        Spurious::NotYet => matches!(other, Spurious::NotYet),
        Spurious::Waking(a) => is_kind!(other, Spurious::Waking(x) => a == x),
        Spurious::Over => matches!(other, Spurious::Over),
    }
}
