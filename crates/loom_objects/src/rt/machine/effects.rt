//! What operations do, by their kind: at their beginning, once their thread was chosen, and what they do to their object while
//! they are pending (loom's `rt/object.rs`).
ghost use Rattle.std.specs.Prelude.{◌≡◌, slice_get, true, IfOk, OnErr, option_map};
ghost use Rattle.loom_objects.specs.Operation.Accessed.{accessed};
ghost use Rattle.loom_objects.specs.Stages.ChosenCopy.{TellsCopy, reads, reads_at};
ghost use Rattle.loom_objects.specs.Rules.Replied.{replied_by, passed_by};
ghost use Rattle.loom_objects.specs.Rules.Tables as rules;
ghost use Rattle.loom_objects.specs.Rules.Uses as uses;
ghost use Rattle.loom_objects.specs.Scene.Stage.{Does, HasSlot, KeepsSlots};
ghost use Rattle.loom_views.specs.Views.{Points, ShowsViews};

use crate::data::Data;
use crate::operation::{AtomicOp, Reply, Request, Turn};
use crate::rt::atomic_waker::{register, take_waker};
use crate::rt::dependence::{Action, Use};
use crate::rt::run::{Entry, Passed, Resumed};
use crate::rt::scene::Scene;
use crate::rt::thread::{Counting, Task, life};
use crate::rt::{
    alloc, arc, atomic, atomic_waker, cell, condvar, locals, mpsc, mutex, notify, rwlock, waker,
};
use loom_views::rt::failure::FailureKind;
use std::alloc::AllocError;

/// What the active thread's operation does up to its branch point, or all of it, where it has none. An outer error only where
/// memory is refused.
// Inlined: the operation is moved no further.
#[inline(always)]
pub(crate) fn begin_op<D: Data>(
    scene: &mut Scene<D>,
    op: Request<D, ()>,
) -> Result<Result<Entry<D>, FailureKind>, AllocError>
    ensures does { IfOk result (λ answer. Does (rules.op_begins op) scene.old answer scene.new) }
    ensures growth { OnErr result (rules.needs_memory op ≡ true) }
{
    match op {
        Request::Atomic(op) => atomic::atomic_begins(scene, op),
        Request::Fence(order) => Ok(atomic::fence(scene, order)),
        Request::Cell(op) => cell::cell_begins(scene, op),
        Request::Arc(op) => arc::arc_begins(scene, op),
        Request::Track(op) => alloc::track_begins(scene, op),
        Request::Mutex(op) => mutex::mutex_begins(scene, op),
        Request::RwLock(op) => rwlock::rwlock_begins(scene, op),
        Request::Condvar(op) => condvar::condvar_begins(scene, op),
        Request::Notify(op) => notify::notify_begins(scene, op),
        Request::Channel(op) => mpsc::channel_begins(scene, op),
        Request::Waker(op) => waker::waker_begins(scene, op),
        Request::AtomicWaker(op) => atomic_waker::atomic_waker_begins(scene, op),
        Request::Local(op) => locals::local_begins(scene, op),
        Request::Lazy(op) => locals::lazy_begins(scene, op),
        Request::Explore(op) => Ok(Ok(Entry::Explores(op))),
        Request::Thread(op) => life::thread_begins(scene, op),
        Request::Fail => Ok(Err(FailureKind::Assertion)),
        Request::Unreachable => Ok(Err(FailureKind::Unreachable)),
    }
}

/// The active thread has the reply of an effect.
fn replied<D: Drop>(
    answer: Result<Reply<D>, FailureKind>,
    scene: &Scene<D>,
) -> Result<Resumed<D>, FailureKind>
    ensures { result ≡ replied_by scene.now.active answer }
{
    let reply = answer?;
    Ok(scene.reply(reply))
}

/// The chosen thread has its turn, or is at another branch point, as an effect answers.
fn passed<D>(answer: Result<Passed<D>, FailureKind>) -> Result<Resumed<D>, FailureKind>
    ensures { result ≡ passed_by answer }
{
    Ok(Resumed::Passed(answer?))
}

/// The thread is chosen, and what it has pending takes effect; an access that reads from an atomic up to the choice of
/// the store that it reads, of which there is one at least, and each of which is kept.
pub(crate) fn go_on<D: Data>(
    scene: &mut Scene<D>,
    thread: u8,
) -> Result<Result<Resumed<D>, FailureKind>, AllocError>
    ensures does { IfOk result (λ answer. Does (rules.chosen thread) scene.old answer scene.new) }
    ensures slot { IfOk result (λ answer. IfOk answer HasSlot) }
    ensures kept { (p : Points) → ShowsViews p scene.new.views → IfOk result (λ answer. IfOk answer (KeepsSlots p)) }
    ensures growth { OnErr result (TellsCopy (rules.chosen thread) scene.old) }
    ensures reads { OnErr result (reads_at (slice_get scene.old.threads thread) ≡ true) }
{
    match scene.choose(thread) {
        Ok(task) => take_effect(scene, task),
        Err(kind) => Ok(Err(kind)),
    }
}

/// What the active thread had pending takes effect.
fn take_effect<D: Data>(
    scene: &mut Scene<D>,
    task: Task<D>,
) -> Result<Result<Resumed<D>, FailureKind>, AllocError>
    ensures does { IfOk result (λ answer. Does (rules.takes_effect task) scene.old answer scene.new) }
    ensures slot { IfOk result (λ answer. IfOk answer HasSlot) }
    ensures kept { (p : Points) → ShowsViews p scene.new.views → IfOk result (λ answer. IfOk answer (KeepsSlots p)) }
    ensures growth { OnErr result (TellsCopy (rules.takes_effect task) scene.old) }
    ensures reads { OnErr result (reads task ≡ true) }
{
    let answer = match task {
        Task::Start => return Ok(passed(Ok(Passed::Turn(Turn::Start(scene.active()))))),
        Task::Body => Err(FailureKind::Misuse),
        Task::Continue => Ok(Reply::Done),
        Task::Access(access) => return Ok(atomic::access(scene, access)),
        Task::Lock(locking, mutex) => mutex::lock(scene, locking, mutex),
        Task::TryLock(mutex) => mutex::try_lock(scene, mutex),
        Task::Claim(claim, lock) => rwlock::claim(scene, claim, lock)?,
        Task::Wait(locking, condvar, mutex, value) => {
            return Ok(passed(condvar::fall_asleep(scene, locking, condvar, mutex, value)));
        }
        Task::Relock(locking, mutex) => {
            return Ok(passed(Ok(condvar::relock(scene, locking, mutex))));
        }
        Task::Wake(waking, condvar) => condvar::wake(scene, waking, condvar),
        Task::Notify(notifier) => notify::notify_one(scene, notifier),
        Task::Await(notifier) => notify::await_notified(scene, notifier),
        Task::Rouse(notifier) => notify::wake_early(scene, notifier),
        Task::Count(counting, arc) => arc::count(scene, counting, arc),
        Task::TryUnwrap(arc) => return Ok(passed(arc::try_unwrap(scene, arc))),
        Task::Join(thread, notifier) => life::join(scene, thread, notifier),
        Task::Finish(notifier, value) => life::child_finish(scene, notifier, value),
        Task::Send(channel, sent) => mpsc::send(scene, channel, sent),
        Task::Receive(receiving, channel) => mpsc::receive(scene, receiving, channel),
        Task::Drain(channel, taken) => return Ok(passed(mpsc::drain(scene, channel, taken))),
        Task::WakeBy(notifier, waker, after) => {
            return Ok(passed(waker::wake_by(scene, notifier, waker, after)));
        }
        Task::CloneWaker(waker, place) => {
            return Ok(passed(waker::clone_waker(scene, waker, place)));
        }
        Task::DropWaker(waker, after) => return Ok(passed(waker::drop_waker(scene, waker, after))),
        Task::Register(place, waker) => return Ok(passed(register(scene, place, waker))),
        Task::TakeWaker(taking, place) => return Ok(passed(take_waker(scene, taking, place))),
    };
    Ok(replied(answer, scene))
}

/// An access changes its atomic, or may, unless it is a load.
fn atomic_action(access: AtomicOp) -> Action
    ensures { result ≡ uses.atomic_action access }
{
    match access {
        AtomicOp::Load(..) => Action::Read,
        AtomicOp::New(..)
        | AtomicOp::Store(..)
        | AtomicOp::Update(..)
        | AtomicOp::CompareExchange(..)
        | AtomicOp::CompareAndSwap(..)
        | AtomicOp::UnsyncLoad(_)
        | AtomicOp::IntoInner(_)
        | AtomicOp::WithMut(_)
        | AtomicOp::WithMutEnd(..) => Action::Change,
    }
}

fn counting_action(counting: Counting) -> Action
    ensures { result ≡ uses.counting_action counting }
{
    match counting {
        Counting::Clone => Action::Increment,
        Counting::Drop | Counting::GetMut | Counting::Unwrap => Action::Decrement,
        Counting::StrongCount => Action::Inspect,
    }
}

/// It does this to the object.
fn use_as(object: usize, action: Action) -> Use
    ensures { result ≡ uses.used action object }
{
    Use { object, action }
}

/// What the access does to its atomic, if it has one.
fn access_use(access: AtomicOp) -> Option<Use>
    ensures { result ≡ option_map (uses.used (uses.atomic_action access)) (accessed access) }
{
    let object = access.atomic()?;
    Some(use_as(object, atomic_action(access)))
}

impl<D> Task<D> {
    /// The object that the operation is on, and what it does to it; none where it is on no object.
    pub fn used(&self) -> Option<Use>
        ensures { result ≡ uses.use_of self.now }
    {
        match self {
            Task::Access(access) => access_use(*access),
            Task::Count(counting, object) => Some(use_as(*object, counting_action(*counting))),
            Task::TryUnwrap(object) | Task::DropWaker(object, _) => {
                Some(use_as(*object, Action::Decrement))
            }
            Task::CloneWaker(object, _) => Some(use_as(*object, Action::Increment)),
            Task::Send(object, _) => Some(use_as(*object, Action::Send)),
            Task::Receive(_, object) | Task::Drain(object, _) => {
                Some(use_as(*object, Action::Receive))
            }
            Task::Lock(_, object)
            | Task::TryLock(object)
            | Task::Claim(_, object)
            | Task::Wait(_, object, _, _)
            | Task::Wake(_, object)
            | Task::Notify(object)
            | Task::Await(object)
            | Task::Join(_, object)
            | Task::Finish(object, _)
            | Task::WakeBy(object, _, _)
            | Task::Register(object, _)
            | Task::TakeWaker(_, object) => Some(use_as(*object, Action::Other)),
            Task::Start | Task::Body | Task::Continue => None,
            Task::Relock(_, _) | Task::Rouse(_) => None,
        }
    }
}
